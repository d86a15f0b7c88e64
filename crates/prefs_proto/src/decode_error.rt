ghost use Rattle.std.specs.Prelude.{◌≡◌, ◌↔◌, IsTrue};

use prefs_model::PrefKey;
use wire_codec::WireError;

/// Why no map is read. A fault of the wire format stands before all others; then a text, a key, and a value.
#[derive(Drop)]
pub enum DecodeError {
    /// The bytes are no message, or a message in it is none: the first fault in the order of the bytes.
    Wire(WireError),
    /// A key, or a text of a value, is not UTF-8; the least place of such a text's first byte.
    NotUtf8 { place: u64 },
    /// The last entry of a key has a value without a member; the least such key.
    ValueNotSet { key: PrefKey },
    /// The key of an entry has more than 1,024 bytes; the least place of such an entry's tag.
    KeyTooLong { place: u64 },
    /// Memory ran out.
    NoMemory,
}

impl DecodeError {
    /// Whether memory ran out, which says nothing of the bytes.
    pub fn is_no_memory(&self) -> bool
        ensures { IsTrue result ↔ (self.now ≡ DecodeError.NoMemory) }
    {
        match self {
            DecodeError::NoMemory => true,
            _ => false,
        }
    }
}
