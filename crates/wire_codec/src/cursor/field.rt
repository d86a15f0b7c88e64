ghost use Rattle.std.specs.Prelude.{◌<◌, length, IfOk, IfErr};
ghost use Rattle.wire_codec.specs.Cursor.{PassesField};
ghost use Rattle.wire_codec.specs.Faults.{FieldFault};
ghost use Rattle.wire_codec.specs.Fields.{field_seen};

use crate::cursor::Cursor;
use crate::field::Field;
use crate::open_group::OpenGroup;
use crate::payload::Payload;
use crate::wire_error::WireError;
use crate::wire_type::WireType;

impl<'a> Cursor<'a> {
    /// Passes a field.
    pub(crate) fn field(&mut self) -> Result<Field<'a>, WireError>
        requires { 0 < length self.old.rest }
        ensures found { IfOk result (λ f. PassesField self.old (field_seen f) self.new) }
        ensures fault { IfErr result (FieldFault self.old.place self.old.rest) }
    {
        let place = self.place();
        let tag = self.tag()?;
        let number = tag.number;
        match tag.wire_type {
            WireType::Plain(plain) => {
                let (payload, payload_place) = self.payload(plain)?;
                Ok(Field {
                    number,
                    place,
                    payload,
                    payload_place,
                })
            }
            WireType::StartGroup => {
                let payload_place = self.place();
                self.group(OpenGroup { number, place })?;
                Ok(Field {
                    number,
                    place,
                    payload: Payload::Group,
                    payload_place,
                })
            }
            WireType::EndGroup => Err(WireError::LoneEndGroup { place }),
        }
    }
}
