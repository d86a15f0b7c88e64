ghost use Rattle.std.specs.Prelude.{IfOk, IfErr, ◌≡◌, ◌<◌, length};
ghost use Rattle.wire_codec.specs.Cursor.{PassesPayload};
ghost use Rattle.wire_codec.specs.Faults.{PayloadFault};
ghost use Rattle.wire_codec.specs.Payload.{payload_seen, eight, delimited, four};
ghost use Rattle.wire_codec.specs.Tag.{plain_code};

use crate::cursor::Cursor;
use crate::payload::Payload;
use crate::wire_error::WireError;
use crate::wire_type::PlainType;

impl<'a> Cursor<'a> {
    /// Passes a payload that is no group's, and says where it begins.
    pub(crate) fn payload(&mut self, plain: PlainType) -> Result<(Payload<'a>, u64), WireError>
        ensures found { IfOk result (λ p. PassesPayload self.old (plain_code plain) (payload_seen p.0) p.1 self.new) }
        ensures fault { IfErr result (PayloadFault self.old.place (plain_code plain) self.old.rest) }
    {
        let place = self.place();
        match plain {
            PlainType::Varint => Ok((Payload::Varint(self.varint()?), place)),
            PlainType::Eight => Ok((Payload::Eight(self.eight()?), place)),
            PlainType::Bytes => {
                let (bytes, place) = self.delimited()?;
                Ok((Payload::Bytes(bytes), place))
            }
            PlainType::Four => Ok((Payload::Four(self.four()?), place)),
        }
    }

    fn eight(&mut self) -> Result<u64, WireError>
        ensures found { IfOk result (λ n. PassesPayload self.old 1 (eight n) self.old.place self.new) }
        ensures fault { IfErr result (PayloadFault self.old.place 1 self.old.rest) }
    {
        let place = self.place();
        let Some(b) = self.take(8) else {
            return Err(WireError::PastEnd { place });
        };
        Ok(u64::from_le_bytes([b[0], b[1], b[2], b[3], b[4], b[5], b[6], b[7]]))
    }

    fn four(&mut self) -> Result<u32, WireError>
        ensures found { IfOk result (λ n. PassesPayload self.old 5 (four n) self.old.place self.new) }
        ensures fault { IfErr result (PayloadFault self.old.place 5 self.old.rest) }
    {
        let place = self.place();
        let Some(b) = self.take(4) else {
            return Err(WireError::PastEnd { place });
        };
        Ok(u32::from_le_bytes([b[0], b[1], b[2], b[3]]))
    }

    /// The bytes behind their length, and the place of the first of them.
    fn delimited(&mut self) -> Result<(&'a [u8], u64), WireError>
        ensures found { IfOk result (λ p. PassesPayload self.old 2 (delimited p.0.now) p.1 self.new) }
        ensures fault { IfErr result (PayloadFault self.old.place 2 self.old.rest) }
    {
        let len = self.varint()?;
        let place = self.place();
        match self.take(len) {
            Some(bytes) => Ok((bytes, place)),
            None => Err(WireError::PastEnd { place }),
        }
    }
}
