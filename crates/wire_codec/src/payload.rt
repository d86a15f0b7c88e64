/// What follows a field's tag (Protocol Buffers encoding guide, "Message Structure").
#[derive(Clone, Copy, Debug, PartialEq, Eq)]
pub enum Payload<'a> {
    /// Wire type 0: the low 64 bits of a varint.
    Varint(u64),
    /// Wire type 1: eight bytes, the least first.
    Eight(u64),
    /// Wire type 2: the bytes behind their length. They are not looked into.
    Bytes(&'a [u8]),
    /// Wire type 3: a group, which was passed up to its end tag.
    Group,
    /// Wire type 5: four bytes, the least first.
    Four(u32),
}
