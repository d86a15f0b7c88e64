//! Main at the start and at the end of a session.
ghost use Rattle.std.specs.Prelude.{◌≡◌, [], IfOk, option_copied};
ghost use Rattle.folder_disk.specs.MainRead.{main_of};
ghost use Rattle.hist_journal.specs.View.{base_seen};
ghost use Rattle.prefs_proto.specs.Reads.{Reads};
ghost use Rattle.shelf.specs.Base.{ReadsAs};
ghost use Rattle.script_lang.specs.Good.{file_seen};

use folder_disk::MainRead;
use hist_journal::Base;
use prefs_model::PrefMap;
use prefs_proto::PrefsCodec;
use script_lang::FileSeen;
use std::alloc::{AllocError, Global};
use std::sync::Arc;
use store_traits::{Codec, Decoded, FileBytes};

/// How many bytes main may have.
pub(crate) const FILE_LIMIT: u64 = 1_048_576;

/// The same main.
pub(crate) fn copy_of(alloc: Global, main: &MainRead) -> Result<MainRead, AllocError>
    ensures { IfOk result (λ copy. main_of copy ≡ main_of main.now) }
{
    match main {
        MainRead::Absent => Ok(MainRead::Absent),
        MainRead::Bytes(bytes) => Ok(MainRead::Bytes(FileBytes::new(
            bytes.as_slice().to_vec(alloc)?,
        ))),
    }
}

/// What main reads as.
pub(crate) fn base_of(alloc: Global, main: Option<&[u8]>) -> Result<Base<PrefMap>, AllocError>
    ensures { IfOk result (λ base. ReadsAs Reads [] FILE_LIMIT (option_copied main.entry) (base_seen base)) }
{
    let Some(bytes) = main else {
        let map = PrefsCodec.default_value(alloc)?;
        return Ok(Base::Held(Arc::new(alloc, map)?));
    };
    let len = bytes.len() as u64;
    if len > FILE_LIMIT {
        return Ok(Base::TooLong(len));
    }
    match PrefsCodec.decode(alloc, bytes)? {
        Decoded::Good(map) => Ok(Base::Held(Arc::new(alloc, map)?)),
        Decoded::Corrupt => Ok(Base::Corrupt),
    }
}

/// What a transcript tells of main.
pub(crate) fn told_main(alloc: Global, main: Option<&[u8]>) -> Result<FileSeen, AllocError>
    ensures { IfOk result (λ told. told ≡ file_seen FILE_LIMIT (option_copied main.entry)) }
{
    let Some(bytes) = main else {
        return Ok(FileSeen::Absent);
    };
    let len = bytes.len() as u64;
    if len > FILE_LIMIT {
        return Ok(FileSeen::TooLong(len));
    }
    Ok(FileSeen::Bytes(FileBytes::new(bytes.to_vec(alloc)?)))
}
