//! A write goes through its states, a failed call hands the plan back, and plans may cross threads.
use crate::{Filled, Fresh, Kept, Renamed, Synced};
use folder_disk::{Folder, FolderCall, MainRead, MemFolder, Planned};
use std::alloc::Global;
use std::test::Fail;
use store_traits::FileBytes;

/// One piece and 904 bytes.
const TEXT_LEN: usize = 5000;

fn text(alloc: Global) -> Result<FileBytes, Fail> {
    Ok(FileBytes::new(vec![in alloc; 7u8; TEXT_LEN]?))
}

fn folder_with(alloc: Global, failing: Vec<Planned>) -> Result<MemFolder, Fail> {
    let old = FileBytes::new(b"old".to_vec(alloc)?);
    Ok(MemFolder::new(alloc, MainRead::Bytes(old), failing)?)
}

#[test]
fn a_text_of_two_pieces_becomes_main(rt: HostRuntime) -> Result<(), Fail> {
    let alloc = rt.alloc();
    let mut folder = folder_with(alloc, Vec::new(alloc))?;
    folder.make_room(alloc, 2 * 4096)?;
    let fresh = Fresh::new(text(alloc)?);
    let filled = fresh.create(&mut folder).ok().ok_or("create")?;
    assert_eq!(rt; filled.rest(), 5000);
    let filled = filled.append(&mut folder).ok().ok_or("append")?;
    assert_eq!(rt; filled.rest(), 904);
    let filled = filled.append(&mut folder).ok().ok_or("append")?;
    assert_eq!(rt; filled.rest(), 0);
    let synced = filled.sync(&mut folder).ok().ok_or("sync")?;
    assert_eq!(rt; folder.main(), Some(b"old".as_slice()));
    let renamed = synced.rename(&mut folder).ok().ok_or("rename")?;
    let _kept = renamed.keep(&mut folder).ok().ok_or("keep")?;
    assert_eq!(rt; folder.main(), Some(text(alloc)?.as_slice()));
    Ok(())
}

#[test]
fn a_failed_call_hands_the_plan_back(rt: HostRuntime) -> Result<(), Fail> {
    let alloc = rt.alloc();
    let call = FolderCall::Append;
    let mut folder = folder_with(alloc, vec![in alloc; Planned { call, number: 1 }]?)?;
    folder.make_room(alloc, TEXT_LEN as u64)?;
    let fresh = Fresh::new(text(alloc)?);
    let filled = fresh.create(&mut folder).ok().ok_or("create")?;
    let handed_back = filled.append(&mut folder).err().ok_or("append")?;
    assert_eq!(rt; handed_back.rest(), 5000);
    assert_eq!(rt; folder.faults(), 1);
    Ok(())
}

fn is_shared_by_threads<T: Send + Sync>() {}

#[test]
fn plans_cross_threads() {
    is_shared_by_threads::<(Fresh, Filled, Synced)>();
    is_shared_by_threads::<(Renamed, Kept)>();
}
