ghost use Rattle.std.specs.Prelude.{IfOk};
ghost use Rattle.prefs_proto.specs.Found.{TextRead, TextAdded, unfit_place};

use crate::unfit::UnfitAt;
use prefs_model::{Entries, PrefText};
use std::alloc::{AllocError, Global};

/// The bytes as a text, or their place where they are none.
pub(crate) fn read_text(
    alloc: Global,
    bytes: &[u8],
    place: u64,
) -> Result<Result<PrefText, UnfitAt>, AllocError>
    ensures { IfOk result (TextRead place bytes.now) }
{
    let Ok(text) = std::str::from_utf8(bytes) else {
        return Ok(Err(UnfitAt(place)));
    };
    Ok(Ok(PrefText::new(String::from_str(alloc, text)?)))
}

/// Adds the bytes to the texts, or answers their place where they are none.
pub(crate) fn add_text(
    alloc: Global,
    bytes: &[u8],
    place: u64,
    texts: &mut Entries<PrefText>,
) -> Result<Result<(), UnfitAt>, AllocError>
    ensures { IfOk result (λ read. TextAdded place bytes.now texts.old texts.new (unfit_place read)) }
{
    match read_text(alloc, bytes, place)? {
        Ok(text) => {
            texts.push(text)?;
            Ok(Ok(()))
        }
        Err(at) => Ok(Err(at)),
    }
}
