ghost use Rattle.std.specs.Prelude.{◌≡◌, not};
ghost use Rattle.std.specs.Borrow.{sem};
ghost use Rattle.folder_disk.specs.FuseFolder.{is_used_up, once_used};
ghost use Rattle.folder_disk.specs.Lending.{lends_inner};

use crate::{Folder, MainRead, ReadMainError};
use std::alloc::{AllocError, Global};
use store_traits::Failed;

/// A folder with a fuse: it passes so many calls of the device on to the folder within, and then
/// fails each one, which the folder within never sees.
#[derive(Drop)]
pub struct FuseFolder<F> {
    inner: F,
    // How many calls the fuse still lets pass. With none it fails no call.
    left: Option<u64>,
    // How many calls it failed, at most 2^64 - 1.
    blown: u64,
}

impl<F: Folder> FuseFolder<F> {
    /// `fuse` is how many calls pass. With none, no call fails by the fuse. It takes no memory.
    pub fn new(inner: F, fuse: Option<u64>) -> FuseFolder<F>
        ensures { result ≡ record { inner = inner; left = fuse; blown = 0 } }
    {
        FuseFolder {
            inner,
            left: fuse,
            blown: 0,
        }
    }

    /// Lends the folder within.
    pub fn inner(&mut self) -> &mut F
        ensures lent { result.now ≡ self.old.inner }
        ensures* writes_back { sem 𝓛 (lends_inner F.row self.entry result) }
    {
        &mut self.inner
    }

    /// A new fuse. The count of faults goes on.
    pub fn set_fuse(&mut self, fuse: Option<u64>)
        ensures { self.new ≡ record self.old { left = fuse } }
    {
        self.left = fuse;
    }

    // Whether the fuse lets one more call pass. One that it fails is a fault.
    fn passes(&mut self) -> bool
        ensures passed { result ≡ not (is_used_up self.old.left) }
        ensures after { self.new ≡ once_used self.old }
    {
        match self.left {
            None => true,
            Some(0) => {
                self.blown = self.blown.saturating_add(1);
                false
            }
            Some(left) => {
                self.left = Some(left - 1);
                true
            }
        }
    }
}

#[tactic(auto, using(crate::proofs::FolderLemmas::loosens_same))]
impl<F: Folder> Folder for FuseFolder<F> {
    ghost use Rattle.folder_disk.specs.FuseFolder.{fused_tally};

    ghost told = { F.told };

    ghost contents = { λ folder. F.contents folder.inner };

    ghost tally = { fused_tally F.Folder };

    ghost spares = { F.spares };

    ghost room = { λ folder. F.room folder.inner };

    fn faults(&self) -> u64 {
        self.inner.faults().saturating_add(self.blown)
    }

    fn start(&mut self) {
        self.inner.start();
    }

    fn read_main(&mut self, alloc: Global, limit: u64) -> Result<MainRead, ReadMainError> {
        if !self.passes() {
            return Err(ReadMainError::Failed);
        }
        self.inner.read_main(alloc, limit)
    }

    fn make_room(&mut self, alloc: Global, len: u64) -> Result<(), AllocError> {
        self.inner.make_room(alloc, len)
    }

    fn create_scratch(&mut self) -> Result<(), Failed> {
        if !self.passes() {
            return Err(Failed);
        }
        self.inner.create_scratch()
    }

    fn append_scratch(&mut self, piece: &[u8]) -> Result<(), Failed> {
        if !self.passes() {
            return Err(Failed);
        }
        self.inner.append_scratch(piece)
    }

    fn sync_scratch(&mut self) -> Result<(), Failed> {
        if !self.passes() {
            return Err(Failed);
        }
        self.inner.sync_scratch()
    }

    fn rename_scratch(&mut self) -> Result<(), Failed> {
        if !self.passes() {
            return Err(Failed);
        }
        self.inner.rename_scratch()
    }

    fn sync_folder(&mut self) -> Result<(), Failed> {
        if !self.passes() {
            return Err(Failed);
        }
        self.inner.sync_folder()
    }
}
