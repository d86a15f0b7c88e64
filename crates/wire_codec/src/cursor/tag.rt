ghost use Rattle.std.specs.Prelude.{IfOk, IfErr};
ghost use Rattle.wire_codec.specs.Cursor.{PassesTag};
ghost use Rattle.wire_codec.specs.Faults.{TagFault};
ghost use Rattle.wire_codec.specs.Tag.{code_of};

use crate::cursor::Cursor;
use crate::tag::Tag;
use crate::wire_error::WireError;
use crate::wire_type::WireType;

impl<'a> Cursor<'a> {
    /// Passes a tag.
    pub(crate) fn tag(&mut self) -> Result<Tag, WireError>
        ensures found { IfOk result (λ tag. PassesTag self.old tag.number (code_of tag.wire_type) self.new) }
        ensures fault { IfErr result (TagFault self.old.place self.old.rest) }
    {
        let place = self.place();
        let value = self.varint()?;
        if value > u64::from(u32::MAX) {
            return Err(WireError::TagTooLarge { place });
        }
        if value < 8 {
            return Err(WireError::FieldZero { place });
        }
        match WireType::of(value % 8) {
            Some(wire_type) => Ok(Tag {
                number: (value / 8) as u32,
                wire_type,
            }),
            None => Err(WireError::BadWireType { place }),
        }
    }
}
