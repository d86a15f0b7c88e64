ghost use Rattle.std.specs.Prelude.{◌≡◌, ◌≤◌, ◌<◌, MatchOption};
ghost use Rattle.wire_codec.specs.Tag.{code_of};

/// The payload of a field that is no group.
#[derive(Clone, Copy)]
pub(crate) enum PlainType {
    Varint,
    Eight,
    Bytes,
    Four,
}

/// What the low three bits of a tag say of what follows it.
#[derive(Clone, Copy)]
pub(crate) enum WireType {
    Plain(PlainType),
    StartGroup,
    EndGroup,
}

impl WireType {
    /// The wire type with this code, from 0 to 7. Two codes have none.
    pub(crate) fn of(code: u64) -> Option<WireType>
        requires { code < 8 }
        ensures { MatchOption result (6 ≤ code) (λ wire_type. code_of wire_type ≡ code) }
    {
        match code {
            0 => Some(WireType::Plain(PlainType::Varint)),
            1 => Some(WireType::Plain(PlainType::Eight)),
            2 => Some(WireType::Plain(PlainType::Bytes)),
            3 => Some(WireType::StartGroup),
            4 => Some(WireType::EndGroup),
            5 => Some(WireType::Plain(PlainType::Four)),
            _ => None,
        }
    }
}
