ghost use Rattle.std.specs.Prelude.{◌≡◌, ◌^◌, ℕ, [], false, None};
ghost use Rattle.folder_disk.specs.Contents.{Gone, Wild};
ghost use Rattle.folder_disk.specs.Planned.{no_calls};

use crate::main_file::{is_fault, read_path};
use crate::{Folder, MainRead, ReadMainError};
use std::alloc::{AllocError, Global};
use std::fs::OpenFile;
use std::io::Write;
use std::marker::Model;
use std::rt::Files;
use std::{fs, io};
use store_traits::{Failed, FaultCount};

/// Where a folder and its two files are.
#[derive(Clone, Copy)]
pub(crate) struct Paths {
    pub(crate) folder: &'static str,
    pub(crate) main: &'static str,
    pub(crate) scratch: &'static str,
}

const CURRENT_FOLDER: Paths = Paths {
    folder: ".",
    main: "settings.preferences_pb",
    scratch: "settings.preferences_pb.tmp",
};

/// The current folder, with the main file `settings.preferences_pb`.
///
/// It tells nothing of what its files hold. A failed call of the system is a fault, and so is its
/// want of memory in a call that writes.
#[derive(Drop)]
pub struct StdFolder<R: Files + Drop> {
    rt: R,
    paths: Paths,
    scratch: Option<R::File>,
    faults: FaultCount,
}

// Clauses see the count of faults.
impl<R: Files + Drop> Model for StdFolder<R> {
    ghost Value = { ℕ };

    ghost view = { λ f. f.faults };
}

impl<R: Files + Drop> StdFolder<R> {
    /// Calls nothing of the system.
    pub fn new(rt: R) -> StdFolder<R>
        ensures { result ≡ 0 }
    {
        StdFolder::at(rt, CURRENT_FOLDER)
    }

    pub(crate) fn at(rt: R, paths: Paths) -> StdFolder<R>
        ensures { result ≡ 0 }
    {
        StdFolder {
            rt,
            paths,
            scratch: None,
            faults: FaultCount::new(),
        }
    }

    // What an earlier failure left is closed and forgotten, whatever comes of this call.
    fn create(&mut self) -> io::Result<()>
        ensures { self.new ≡ self.old }
    {
        self.scratch = None;
        self.scratch = Some(fs::create(&self.rt, self.paths.scratch)?);
        Ok(())
    }

    fn append(&mut self, piece: &[u8]) -> io::Result<()>
        ensures { self.new ≡ self.old }
    {
        match &mut self.scratch {
            Some(file) => file.write_all(piece),
            None => Err(io::ErrorKind::NotFound.into()),
        }
    }

    fn sync(&self) -> io::Result<()> {
        match &self.scratch {
            Some(file) => file.sync_all(),
            None => Err(io::ErrorKind::NotFound.into()),
        }
    }

    // Once it is main, the scratch file is closed, so that nothing more is written to it.
    fn rename(&mut self) -> io::Result<()>
        ensures { self.new ≡ self.old }
    {
        fs::rename(&self.rt, self.paths.scratch, self.paths.main)?;
        self.scratch = None;
        Ok(())
    }
}

// Brings the names in a folder to the disk.
fn sync_path<R: Files>(rt: &R, path: &str) -> io::Result<()> {
    fs::open(rt, path)?.sync_all()
}

impl<R: Files + Drop> Folder for StdFolder<R> {
    ghost told = { false };

    ghost contents = { λ _. record { main = None; scratch = Gone; kept = Wild; first = None; alone = false } };

    ghost tally = { λ count. record { count = count; most = None; due = record { planned = []; made = no_calls; fuses = [] } } };

    ghost spares = { false };

    ghost room = { λ _. record { creates = 1; bytes = 2 ^ 64; renames = 1 } };

    fn faults(&self) -> u64 {
        self.faults.get()
    }

    fn start(&mut self) {}

    fn read_main(&mut self, alloc: Global, limit: u64) -> Result<MainRead, ReadMainError> {
        let read = read_path(&self.rt, self.paths.main, alloc, limit);
        self.faults.count(is_fault(&read));
        read
    }

    fn make_room(&mut self, _alloc: Global, _len: u64) -> Result<(), AllocError> {
        Ok(())
    }

    /// A scratch file that was left is emptied.
    fn create_scratch(&mut self) -> Result<(), Failed> {
        let outcome = self.create();
        self.faults.answer(outcome)
    }

    fn append_scratch(&mut self, piece: &[u8]) -> Result<(), Failed> {
        let outcome = self.append(piece);
        self.faults.answer(outcome)
    }

    fn sync_scratch(&mut self) -> Result<(), Failed> {
        let outcome = self.sync();
        self.faults.answer(outcome)
    }

    fn rename_scratch(&mut self) -> Result<(), Failed> {
        let outcome = self.rename();
        self.faults.answer(outcome)
    }

    fn sync_folder(&mut self) -> Result<(), Failed> {
        let outcome = sync_path(&self.rt, self.paths.folder);
        self.faults.answer(outcome)
    }
}
