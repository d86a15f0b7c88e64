ghost use Rattle.std.specs.Prelude.{IfOk, IfErr};
ghost use Rattle.wire_codec.specs.Cursor.{PassesVarint};
ghost use Rattle.wire_codec.specs.Faults.{VarintFault};

use crate::cursor::Cursor;
use crate::wire_error::WireError;

impl<'a> Cursor<'a> {
    /// Passes a varint, and gives its number.
    pub(crate) fn varint(&mut self) -> Result<u64, WireError>
        ensures found { IfOk result (λ n. PassesVarint self.old n self.new) }
        ensures fault { IfErr result (VarintFault self.old.place self.old.rest) }
    {
        let place = self.place();
        let mut value = 0u64;
        let mut worth = 1u64;
        for _ in 0..10u32 {
            let Some(byte) = self.byte() else {
                return Err(WireError::PastEnd { place });
            };
            value = value.wrapping_add(worth.wrapping_mul(u64::from(byte % 128)));
            if byte < 128 {
                return Ok(value);
            }
            worth = worth.wrapping_mul(128);
        }
        Err(WireError::VarintTooLong { place })
    }
}
