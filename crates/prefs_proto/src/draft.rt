ghost use Rattle.std.specs.Prelude.{◌≡◌, ◌+◌, ◌<◌, ◌^◌, length, IfOk};
ghost use Rattle.prefs_proto.specs.Found.{DraftSetRead, run_in, settled};

use crate::read_set::read_set;
use crate::stop::Stop;
use crate::unfit::UnfitAt;
use prefs_model::{Entries, PrefText, PrefValue, TextSet};
use std::alloc::{AllocError, Global};

/// What the members of a value so far leave of it.
#[derive(Drop)]
pub(crate) enum Draft {
    /// There was no member.
    Unset,
    /// The last member was no string set.
    One(PrefValue),
    /// The texts of the string sets since the last other member.
    Run(Entries<PrefText>),
}

/// Joins a message `StringSet`, whose first byte has the place, or answers the least place of a text that is
/// not UTF-8.
pub(crate) fn add_set(
    alloc: Global,
    bytes: &[u8],
    place: u64,
    draft: &mut Draft,
) -> Result<Result<(), UnfitAt>, Stop>
    requires { place + length bytes.now < 2 ^ 64 }
    ensures { DraftSetRead place bytes.now draft.old draft.new result }
{
    let mut texts = into_run(alloc, std::mem::replace(draft, Draft::Unset));
    let read = read_set(alloc, bytes, place, &mut texts)?;
    *draft = Draft::Run(texts);
    Ok(read)
}

/// The texts that a string set is joined with.
fn into_run(alloc: Global, draft: Draft) -> Entries<PrefText>
    ensures { result ≡ run_in draft }
{
    match draft {
        Draft::Run(texts) => texts,
        _ => Entries::new(alloc),
    }
}

/// The value that is left, if there is one.
pub(crate) fn into_value(draft: Draft) -> Result<Option<PrefValue>, AllocError>
    ensures { IfOk result (λ value. value ≡ settled draft) }
{
    match draft {
        Draft::Unset => Ok(None),
        Draft::One(value) => Ok(Some(value)),
        Draft::Run(texts) => {
            let set = TextSet::from_entries(texts)?;
            // A set is known by its texts, which rise.
            let _ = set.texts();
            Ok(Some(PrefValue::Texts(set)))
        }
    }
}
