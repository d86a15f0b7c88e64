/// By which command a script is read.
#[derive(Clone, Copy, Debug, PartialEq, Eq)]
pub enum Mode {
    /// Step by step, on one thread.
    Replay,
    /// On threads, over a folder in memory.
    Drill,
    /// On threads, over the folder that is handed in: the file is there already.
    Nodes,
}
