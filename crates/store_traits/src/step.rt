/// The single steps of a call. Each but `V1` is one turn, in which the call holds the shared state.
#[derive(Clone, Copy, Debug, PartialEq, Eq, PartialOrd, Ord)]
pub enum Step {
    /// Initialisation: take the lock.
    I1,
    /// Read main.
    I2,
    /// Read the old settings and migrate.
    I3,
    /// Sync the folder.
    I4,
    /// Clear one section of the old settings.
    I5,
    /// The node is initialised.
    I6,
    /// Update: take the lock.
    U1,
    /// Read main and apply the transform.
    U2,
    /// Raise the version.
    U3,
    /// Create the scratch file.
    U4,
    /// Append a piece to it.
    U5,
    /// Sync it.
    U6,
    /// Rename it over main.
    U7,
    /// Sync the folder.
    U8,
    /// Read: look in the cache.
    V1,
    /// Take the lock, if it is free.
    V2,
    /// Read main.
    V3,
    /// Replacement of an unreadable main: take the lock.
    P1,
    /// Read main once more.
    P2,
    /// Restart a node.
    R1,
}
