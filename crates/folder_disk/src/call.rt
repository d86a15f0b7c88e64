ghost use Rattle.std.specs.Prelude.{◌≡◌, ◌<◌, ◌+◌, ◌*◌, ◌^◌, ◌==◌, ◌&&◌, IsTrue};
ghost use Rattle.folder_disk.specs.Due.{count_of, counted, kind_of, rank};
ghost use Rattle.folder_disk.specs.Planned.{no_calls};

/// The calls of a folder that reach the device.
#[derive(Clone, Copy, Debug, PartialEq, Eq)]
pub enum FolderCall {
    ReadMain,
    Create,
    Append,
    SyncScratch,
    Rename,
    SyncFolder,
}

impl FolderCall {
    // The rank of a failure of the call that follows `made` calls of this kind.
    pub(crate) fn next_rank(self, made: u64) -> u128
        ensures { result ≡ (made + 1) * 6 + kind_of self }
    {
        (u128::from(made) + 1) * 6 + self as u128
    }
}

/// A failure that is planned: of this kind of call, the one with this number in its session, from 1 on.
#[derive(Clone, Copy, Debug, PartialEq, Eq)]
pub struct Planned {
    pub call: FolderCall,
    pub number: u32,
}

impl Planned {
    // Planned failures go by their number, and by the kind of call where numbers are equal.
    pub(crate) fn rank(&self) -> u128
        ensures { result ≡ rank self.now }
    {
        u128::from(self.number) * 6 + self.call as u128
    }

    // Whether it is of the call that follows `made` calls of this kind.
    pub(crate) fn is_next(&self, call: FolderCall, made: u64) -> bool
        ensures value { result ≡ ((kind_of self.now.call == kind_of call) && (self.now.number == made + 1)) }
        ensures bound { IsTrue result → made + 1 < 2 ^ 64 }
    {
        self.call == call && made.checked_add(1) == Some(u64::from(self.number))
    }
}

/// How many calls of each kind were made in a session, each at most 2^64 - 1.
#[derive(Clone, Copy, Debug, PartialEq, Eq)]
pub struct CallCounts {
    pub read_main: u64,
    pub create: u64,
    pub append: u64,
    pub sync_scratch: u64,
    pub rename: u64,
    pub sync_folder: u64,
}

impl CallCounts {
    // None yet.
    pub(crate) fn new() -> CallCounts
        ensures { result ≡ no_calls }
    {
        CallCounts {
            read_main: 0,
            create: 0,
            append: 0,
            sync_scratch: 0,
            rename: 0,
            sync_folder: 0,
        }
    }

    pub(crate) fn count_of(&self, call: FolderCall) -> u64
        ensures { result ≡ count_of self.now call }
    {
        match call {
            FolderCall::ReadMain => self.read_main,
            FolderCall::Create => self.create,
            FolderCall::Append => self.append,
            FolderCall::SyncScratch => self.sync_scratch,
            FolderCall::Rename => self.rename,
            FolderCall::SyncFolder => self.sync_folder,
        }
    }

    pub(crate) fn count(&mut self, call: FolderCall)
        ensures { self.new ≡ counted call self.old }
    {
        match call {
            FolderCall::ReadMain => self.read_main = self.read_main.saturating_add(1),
            FolderCall::Create => self.create = self.create.saturating_add(1),
            FolderCall::Append => self.append = self.append.saturating_add(1),
            FolderCall::SyncScratch => self.sync_scratch = self.sync_scratch.saturating_add(1),
            FolderCall::Rename => self.rename = self.rename.saturating_add(1),
            FolderCall::SyncFolder => self.sync_folder = self.sync_folder.saturating_add(1),
        }
    }
}
