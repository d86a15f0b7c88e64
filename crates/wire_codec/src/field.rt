ghost use Rattle.std.specs.Prelude.{◌≡◌};

use crate::payload::Payload;

/// A field of a message.
#[derive(Clone, Copy, Debug, PartialEq, Eq)]
pub struct Field<'a> {
    /// From 1 to 2^29 - 1.
    pub number: u32,
    /// The place of the tag's first byte.
    pub place: u64,
    pub payload: Payload<'a>,
    pub(crate) payload_place: u64,
}

impl Field<'_> {
    /// The place of the payload's first byte. Of wire type 2 that is the first byte behind the length:
    /// where the text begins, and where a reader of it as a message begins to count.
    pub fn payload_place(&self) -> u64
        ensures { result ≡ self.now.payload_place }
    {
        self.payload_place
    }
}
