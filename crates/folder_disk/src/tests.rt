ghost use Rattle.std.specs.Prelude.{IsTrue, IfOk, OnOk};
ghost use Rattle.folder_disk.specs.MemFolder.{contents_of};
ghost use Rattle.folder_disk.specs.Stops.{IsTame};

use crate::std_folder::Paths;
use crate::{
    Folder, FolderCall, FuseFolder, MainRead, MemFolder, Planned, ReadMainError, StdFolder,
};
use std::alloc::{AllocError, Global};
use std::test::Fail;
use std::{fs, io};
use store_traits::{Failed, FileBytes};

const REAL: Paths = Paths {
    folder: "folder_disk_test",
    main: "folder_disk_test/settings.preferences_pb",
    scratch: "folder_disk_test/settings.preferences_pb.tmp",
};

// Moves bytes over main in two pieces, as the layers above do it over any folder, all but the sync of
// the names.
fn move_over<F: Folder>(folder: &mut F, alloc: Global, bytes: &[u8]) -> Result<(), Failed>
    ensures { IsTrue F.told → IsTame (F.contents folder.old).kept → OnOk result (IsTame (F.contents folder.new).kept) }
{
    if folder.make_room(alloc, bytes.len() as u64).is_err() {
        return Err(Failed);
    }
    let (front, back) = bytes.split_at(bytes.len() / 2);
    folder.create_scratch()?;
    folder.append_scratch(front)?;
    folder.append_scratch(back)?;
    folder.sync_scratch()?;
    folder.rename_scratch()
}

// One whole write.
fn write<F: Folder>(folder: &mut F, alloc: Global, bytes: &[u8]) -> Result<(), Failed> {
    move_over(folder, alloc, bytes)?;
    folder.sync_folder()
}

// Whether one whole write is made, and the count of faults after it.
fn after_write<F: Folder>(folder: &mut F, alloc: Global, bytes: &[u8]) -> (bool, u64) {
    let is_written = write(folder, alloc, bytes).is_ok();
    (is_written, folder.faults())
}

fn read_is<F: Folder>(folder: &mut F, alloc: Global, limit: u64, wanted: &[u8]) -> bool {
    match folder.read_main(alloc, limit) {
        Ok(MainRead::Bytes(bytes)) => bytes.as_slice() == wanted,
        Ok(MainRead::Absent) | Err(_) => false,
    }
}

fn read_error<F: Folder>(folder: &mut F, alloc: Global, limit: u64) -> Option<ReadMainError> {
    folder.read_main(alloc, limit).err()
}

fn is_absent<F: Folder>(folder: &mut F, alloc: Global) -> bool {
    match folder.read_main(alloc, 0) {
        Ok(MainRead::Absent) => true,
        Ok(MainRead::Bytes(_)) | Err(_) => false,
    }
}

// A folder with the main file "old".
fn with_old(alloc: Global, failing: Vec<Planned>) -> Result<MemFolder, AllocError>
    ensures { IfOk result (λ folder. IsTame (contents_of folder).kept) }
{
    let main = MainRead::Bytes(FileBytes::new(b"old".to_vec(alloc)?));
    MemFolder::new(alloc, main, failing)
}

// The same, where the call with this number fails.
fn failing(alloc: Global, call: FolderCall, number: u32) -> Result<MemFolder, AllocError> {
    with_old(alloc, vec![in alloc; Planned { call, number }]?)
}

// Whether this call strikes the first of two writes alone, which leaves `main`.
fn strikes_once(alloc: Global, call: FolderCall, main: &[u8]) -> Result<bool, AllocError> {
    let mut folder = failing(alloc, call, 1)?;
    let first = after_write(&mut folder, alloc, b"new");
    let is_kept = folder.main() == Some(main);
    let second = after_write(&mut folder, alloc, b"next");
    let is_next = folder.main() == Some(b"next".as_slice());
    Ok(first == (false, 1) && is_kept && second == (true, 1) && is_next)
}

#[test]
fn each_planned_failure_strikes_once(rt: HostRuntime) -> Result<(), Fail> {
    let rows = [
        (FolderCall::Create, b"old"),
        (FolderCall::Append, b"old"),
        (FolderCall::SyncScratch, b"old"),
        (FolderCall::Rename, b"old"),
        (FolderCall::SyncFolder, b"new"),
    ];
    for (call, main) in rows {
        assert!(rt; strikes_once(rt.alloc(), call, main)?, "{call:?}");
    }
    Ok(())
}

// Failures that are planned out of order, and two of them twice.
fn out_of_order(alloc: Global) -> Result<Vec<Planned>, AllocError> {
    let (read, sync) = (FolderCall::ReadMain, FolderCall::SyncFolder);
    let mut planned = Vec::new(alloc);
    for (call, number) in [
        (read, 5),
        (sync, 3),
        (read, 2),
        (read, 5),
        (sync, 1),
        (sync, 3),
    ] {
        planned.push(Planned { call, number })?;
    }
    Ok(planned)
}

// Whether a read fails, and a sync of the names behind it.
fn which_fail<F: Folder>(folder: &mut F, alloc: Global) -> (bool, bool) {
    let is_read_failed = read_error(folder, alloc, 3) == Some(ReadMainError::Failed);
    (is_read_failed, folder.sync_folder().is_err())
}

#[test]
fn each_of_many_failures_strikes_where_it_is_planned(rt: HostRuntime) -> Result<(), Fail> {
    let mut folder = with_old(rt.alloc(), out_of_order(rt.alloc())?)?;
    let rows = [
        (false, true),
        (true, false),
        (false, true),
        (false, false),
        (true, false),
        (false, false),
    ];
    for wanted in rows {
        assert_eq!(rt; which_fail(&mut folder, rt.alloc()), wanted);
    }
    assert_eq!(rt; folder.faults(), 4);
    Ok(())
}

// How a write ends behind a fuse that lets so many calls pass, the faults after it, and whether main is
// `main` then.
fn behind_fuse(alloc: Global, calls: u64, main: &[u8]) -> Result<(bool, u64, bool), AllocError> {
    let mut folder = FuseFolder::new(with_old(alloc, Vec::new(alloc))?, Some(calls));
    let (is_written, faults) = after_write(&mut folder, alloc, b"new");
    Ok((is_written, faults, folder.inner().main() == Some(main)))
}

#[test]
fn a_fuse_lets_so_many_calls_pass(rt: HostRuntime) -> Result<(), Fail> {
    // The fifth call of six moves the scratch file over main.
    for calls in 0..8u64 {
        let main = if calls < 5 { b"old" } else { b"new" };
        let wanted = (calls >= 6, u64::from(calls < 6), true);
        assert_eq!(rt; behind_fuse(rt.alloc(), calls, main)?, wanted, "{calls}");
    }
    Ok(())
}

#[test]
fn a_fuse_stands_behind_a_fuse(rt: HostRuntime) -> Result<(), Fail> {
    let within = FuseFolder::new(with_old(rt.alloc(), Vec::new(rt.alloc()))?, Some(3));
    let mut folder = FuseFolder::new(within, Some(8));
    assert_eq!(rt; after_write(&mut folder, rt.alloc(), b"one"), (false, 1));
    folder.inner().set_fuse(None);
    assert_eq!(rt; after_write(&mut folder, rt.alloc(), b"two"), (false, 2));
    folder.set_fuse(None);
    assert_eq!(rt; after_write(&mut folder, rt.alloc(), b"three"), (true, 2));
    Ok(())
}

#[test]
fn a_stop_leaves_the_image_that_is_chosen(rt: HostRuntime) -> Result<(), Fail> {
    for (choice, main) in [(0, b"old"), (1, b"new"), (2, b"new")] {
        let mut folder = with_old(rt.alloc(), Vec::new(rt.alloc()))?;
        move_over(&mut folder, rt.alloc(), b"new")?;
        assert_eq!(rt; folder.images(), 2);
        let failing = vec![in rt.alloc();
            Planned {
                call: FolderCall::Create,
                number: 1
            },
        ]?;
        folder.stop(choice, failing);
        assert!(rt; folder.main() == Some(main), "{choice}");
        assert_eq!(rt; folder.images(), 1);
        assert_eq!(rt; after_write(&mut folder, rt.alloc(), b"next"), (false, 1));
    }
    Ok(())
}

#[test]
fn reads_main_up_to_the_limit(rt: HostRuntime) -> Result<(), Fail> {
    let mut folder = failing(rt.alloc(), FolderCall::ReadMain, 2)?;
    assert!(rt; read_is(&mut folder, rt.alloc(), 3, b"old"));
    let struck = read_error(&mut folder, rt.alloc(), 2);
    assert_eq!(rt; struck, Some(ReadMainError::Failed));
    let too_long = read_error(&mut folder, rt.alloc(), 2);
    assert_eq!(rt; too_long, Some(ReadMainError::TooLong { len: 3 }));
    assert_eq!(rt; folder.faults(), 1);
    Ok(())
}

// A real folder with nothing but a stale scratch file.
fn real_folder(rt: &HostRuntime) -> io::Result<StdFolder<HostRuntime>> {
    let _ = fs::remove_dir_all(rt, REAL.folder);
    fs::create_dir(rt, REAL.folder)?;
    fs::write(rt, REAL.scratch, "a stale scratch file")?;
    Ok(StdFolder::at(rt.clone()?, REAL))
}

// Whether two writes are made in a folder with no main, and the second is what is read.
fn replaces_main<F: Folder>(folder: &mut F, alloc: Global) -> bool {
    let was_absent = is_absent(folder, alloc);
    let first = after_write(folder, alloc, b"first");
    let second = after_write(folder, alloc, b"two");
    let is_read = read_is(folder, alloc, 3, b"two");
    was_absent && first == (true, 0) && second == (true, 0) && is_read
}

fn put_folder_for_main(rt: &HostRuntime) -> io::Result<()> {
    fs::remove_file(rt, REAL.main)?;
    fs::create_dir(rt, REAL.main)
}

#[test]
fn writes_and_reads_a_real_folder(rt: HostRuntime) -> Result<(), Fail> {
    let mut folder = real_folder(&rt)?;
    assert!(rt; replaces_main(&mut folder, rt.alloc()));
    assert!(rt; !fs::exists(&rt, REAL.scratch)?);
    let too_long = read_error(&mut folder, rt.alloc(), 2);
    assert_eq!(rt; too_long, Some(ReadMainError::TooLong { len: 3 }));
    put_folder_for_main(&rt)?;
    let no_file = read_error(&mut folder, rt.alloc(), 9);
    assert_eq!(rt; no_file, Some(ReadMainError::Failed));
    assert_eq!(rt; folder.faults(), 1);
    fs::remove_dir_all(&rt, REAL.folder)?;
    Ok(())
}

fn crosses_threads<T: Send>() {}

#[test]
fn folders_cross_threads() {
    crosses_threads::<(FuseFolder<MemFolder>, StdFolder<HostRuntime>)>();
}
