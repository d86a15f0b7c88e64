ghost use Rattle.std.specs.Prelude.{IfOk, IfErr};
ghost use Rattle.prefs_model.specs.Rising.{IsRising, IsSortedList};
ghost use Rattle.prefs_model.specs.Map.{key_of, IsPair};
ghost use Rattle.prefs_model.specs.Entry.{name_of, HasFirstValues, IsLeastUnset};

use crate::keyed::Keyed;
use crate::{PrefEntry, PrefKey, PrefPair};
use std::alloc::{AllocError, Global};

/// The pairs of entries whose keys rise, or the first key that has no value.
pub(crate) fn first_values(
    alloc: Global,
    mut entries: Vec<PrefEntry>,
) -> Result<Result<Vec<PrefPair>, PrefKey>, AllocError>
    requires { IsRising name_of entries.items }
    ensures sorted { IfOk result (λ r. IfOk r (λ pairs. IsSortedList key_of IsPair pairs.items)) }
    ensures values { IfOk result (λ r. IfOk r (λ pairs. HasFirstValues entries.items pairs.items)) }
    ensures unset { IfOk result (λ r. IfErr r (IsLeastUnset entries.items)) }
{
    let mut pairs = Vec::with_capacity(alloc, entries.len())?;
    // The first entry is taken from the end of the turned list.
    entries.reverse();
    while let Some(PrefEntry { key, value }) = entries.pop() {
        let Some(value) = value else {
            return Ok(Err(key));
        };
        let pair = PrefPair { key, value };
        pair.know_valid();
        pairs.push(pair)?;
    }
    Ok(Ok(pairs))
}
