//! Why bytes are no message.

use thiserror::Error;

/// The first fault of a message. A `place` is a byte offset, counted as the reader was told.
#[derive(Clone, Copy, Debug, PartialEq, Eq, Error)]
pub enum WireError {
    /// Ten bytes in a row say that another follows; the place of the first of them.
    #[error("byte {place}: a varint of more than ten bytes")]
    VarintTooLong { place: u64 },
    /// A tag is above 2^32 - 1; the place of its first byte.
    #[error("byte {place}: a tag of more than 32 bits")]
    TagTooLarge { place: u64 },
    /// A field's number is 0; the place of its tag.
    #[error("byte {place}: a field with the number 0")]
    FieldZero { place: u64 },
    /// A tag has the wire type 6 or 7; the place of the tag.
    #[error("byte {place}: a wire type that is none")]
    BadWireType { place: u64 },
    /// A varint or a payload passes the end of its message; the place of its first byte.
    #[error("byte {place}: cut by the end of the message")]
    PastEnd { place: u64 },
    /// An end tag closes no open group, or another than the innermost; the place of the tag.
    #[error("byte {place}: the end of a group that is not open")]
    LoneEndGroup { place: u64 },
    /// The message ends in a group; the place of the innermost open group's start tag.
    #[error("byte {place}: a group without an end")]
    GroupOpen { place: u64 },
    /// A group would be the 101st open one; the place of its start tag.
    #[error("byte {place}: more than 100 groups in each other")]
    TooDeep { place: u64 },
}
