/// At how many entries, and at which weight, a history is full.
#[derive(Clone, Copy, Debug, PartialEq, Eq)]
pub struct Bounds {
    pub entries: u64,
    pub weight: u64,
}
