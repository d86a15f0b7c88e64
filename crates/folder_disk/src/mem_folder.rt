ghost use Rattle.std.specs.Prelude.{◌≡◌, ◌≤◌, ◌+◌, ◌++◌, [], true, false, length, is_err, IfOk, OnOk, OnErr};
ghost use Rattle.folder_disk.specs.Contents.{Contents, Unsynced, Synced, IsThere, scratch_bytes, ChangesScratch, renamed, folder_synced};
ghost use Rattle.folder_disk.specs.MainRead.{main_of, ReadsMain, is_failed};
ghost use Rattle.folder_disk.specs.Room.{Room, HasRoomFor, Uses};
ghost use Rattle.folder_disk.specs.Tally.{Tallies};

use crate::fault_plan::FaultPlan;
use crate::mains::Mains;
use crate::mem_scratch::MemScratch;
use crate::{Folder, FolderCall, MainRead, Planned, ReadMainError};
use std::alloc::{AllocError, Global};
use store_traits::{Failed, FileBytes};

/// A folder in memory, which tells what it holds. A planned failure changes nothing in it but the
/// count of faults and the call's number.
#[derive(Drop)]
pub struct MemFolder {
    alloc: Global,
    mains: Mains,
    scratch: MemScratch,
    plan: FaultPlan,
}

impl MemFolder {
    ghost use Rattle.std.specs.Prelude.{◌-◌, ◌^◌, min, option_copied};
    ghost use Rattle.folder_disk.specs.MemFolder.{contents_of, tally_of, fresh_contents, fresh_tally};
    ghost use Rattle.folder_disk.specs.Stops.{IsLeftBy, IsTame, image, images_of};

    /// A folder at the start of a session. `main` is on the disk, and each of `failing` strikes once.
    pub fn new(
        alloc: Global,
        main: MainRead,
        failing: Vec<Planned>,
    ) -> Result<MemFolder, AllocError>
        ensures contents { IfOk result (λ f. contents_of f ≡ fresh_contents (main_of main)) }
        ensures tally { IfOk result (λ f. tally_of f ≡ fresh_tally 0 failing.items) }
    {
        Ok(MemFolder {
            alloc,
            mains: Mains::new(alloc, main),
            scratch: MemScratch::new(alloc),
            plan: FaultPlan::new(failing),
        })
    }

    /// Main's bytes, or none where it is absent. It is no call of the device.
    pub fn main(&self) -> Option<&[u8]>
        ensures { option_copied result ≡ (contents_of self.now).main }
    {
        match self.mains.main() {
            MainRead::Absent => None,
            MainRead::Bytes(bytes) => Some(bytes.as_slice()),
        }
    }

    /// How many images a machine stop may leave as main, at most 2^32 - 1.
    pub fn images(&self) -> u32
        requires { IsTame (contents_of self.now).kept }
        ensures { result ≡ min (length (images_of (contents_of self.now).kept)) (2 ^ 32 - 1) }
    {
        self.mains.images()
    }

    /// A stop of the machine. It leaves as main the image with the number `choice`, where 0 is the
    /// oldest, or the last where there are fewer, and no scratch file. From here on each of `failing`
    /// strikes once, with call numbers from 1 on. It takes no memory.
    pub fn stop(&mut self, choice: u32, failing: Vec<Planned>)
        requires { IsTame (contents_of self.old).kept }
        ensures contents { contents_of self.new ≡ fresh_contents (image choice (images_of (contents_of self.old).kept)) }
        ensures left { IsLeftBy (contents_of self.old) (contents_of self.new) }
        ensures tally { tally_of self.new ≡ fresh_tally (tally_of self.old).count failing.items }
    {
        self.mains.stop(choice);
        self.scratch.lose();
        self.plan.restart(failing);
    }
}

// A copy of main, if it has at most `limit` bytes.
fn copy_main(alloc: Global, main: &MainRead, limit: u64) -> Result<MainRead, ReadMainError>
    ensures read { ReadsMain true limit (main_of main.now) result }
    ensures failed { is_failed result ≡ false }
{
    let MainRead::Bytes(bytes) = main else {
        return Ok(MainRead::Absent);
    };
    let bytes = bytes.as_slice();
    let len = bytes.len() as u64;
    if len > limit {
        return Err(ReadMainError::TooLong { len });
    }
    match bytes.to_vec(alloc) {
        Ok(copy) => Ok(MainRead::Bytes(FileBytes::new(copy))),
        Err(_) => Err(ReadMainError::NoMemory),
    }
}

impl Folder for MemFolder {
    ghost use Rattle.folder_disk.specs.MemFolder.{contents_of, tally_of, room_of, IsUntouched};

    ghost told = { true };

    ghost contents = { contents_of };

    ghost tally = { tally_of };

    ghost spares = { true };

    ghost room = { room_of };

    fn faults(&self) -> u64 {
        self.plan.faults()
    }

    fn start(&mut self) {
        self.mains.start();
        self.plan.start();
    }

    fn read_main(&mut self, alloc: Global, limit: u64) -> Result<MainRead, ReadMainError> {
        if self.plan.strikes(FolderCall::ReadMain) {
            return Err(ReadMainError::Failed);
        }
        copy_main(alloc, self.mains.main(), limit)
    }

    fn make_room(&mut self, _alloc: Global, len: u64) -> Result<(), AllocError> {
        let before = self.scratch.room();
        self.scratch.make_room(len)?;
        if let Err(error) = self.mains.make_room() {
            self.scratch.lower_room(before);
            return Err(error);
        }
        Ok(())
    }

    fn create_scratch(&mut self) -> Result<(), Failed>
        ensures ok { OnOk result (ChangesScratch (Unsynced []) (contents_of self.old) (contents_of self.new)) }
        ensures err { OnErr result (IsUntouched self.old self.new) }
        ensures tally { Tallies true FolderCall.Create (is_err result) (tally_of self.old) (tally_of self.new) }
        ensures room { Uses 1 0 0 (room_of self.old) (room_of self.new) }
    {
        if self.plan.strikes(FolderCall::Create) {
            return Err(Failed);
        }
        self.scratch.create();
        Ok(())
    }

    fn append_scratch(&mut self, piece: &[u8]) -> Result<(), Failed>
        requires room { length piece.now ≤ (room_of self.old).bytes }
        requires there { IsThere (contents_of self.old).scratch }
        ensures ok { OnOk result (ChangesScratch (Unsynced (scratch_bytes (contents_of self.old).scratch ++ piece.now)) (contents_of self.old) (contents_of self.new)) }
        ensures err { OnErr result (IsUntouched self.old self.new) }
        ensures tally { Tallies true FolderCall.Append (is_err result) (tally_of self.old) (tally_of self.new) }
        ensures room { Uses 0 (length piece.now) 0 (room_of self.old) (room_of self.new) }
    {
        if self.plan.strikes(FolderCall::Append) {
            return Err(Failed);
        }
        self.scratch.append(piece);
        Ok(())
    }

    fn sync_scratch(&mut self) -> Result<(), Failed>
        requires { IsThere (contents_of self.old).scratch }
        ensures ok { OnOk result (ChangesScratch (Synced (scratch_bytes (contents_of self.old).scratch)) (contents_of self.old) (contents_of self.new)) }
        ensures err { OnErr result (IsUntouched self.old self.new) }
        ensures tally { Tallies true FolderCall.SyncScratch (is_err result) (tally_of self.old) (tally_of self.new) }
        ensures room { room_of self.new ≡ room_of self.old }
    {
        if self.plan.strikes(FolderCall::SyncScratch) {
            return Err(Failed);
        }
        self.scratch.sync();
        Ok(())
    }

    fn rename_scratch(&mut self) -> Result<(), Failed> {
        if self.plan.strikes(FolderCall::Rename) {
            return Err(Failed);
        }
        let is_synced = self.scratch.is_on_disk();
        let bytes = self.scratch.take(self.alloc);
        self.mains.replace(bytes, is_synced);
        Ok(())
    }

    fn sync_folder(&mut self) -> Result<(), Failed> {
        if self.plan.strikes(FolderCall::SyncFolder) {
            return Err(Failed);
        }
        self.mains.keep_now();
        Ok(())
    }
}
