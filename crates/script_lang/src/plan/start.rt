use folder_disk::MainRead;

/// How the first session begins.
#[derive(Drop)]
pub struct Start {
    pub file: MainRead,
    /// How many entries a history may have before it is full, from 1 to 100,000.
    pub entries: u64,
    /// Whether an empty map takes the place of an unreadable file.
    pub replace: bool,
}
