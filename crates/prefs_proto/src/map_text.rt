ghost use Rattle.std.specs.Prelude.{◌≡◌, ◌-◌, ◌^◌, min, length, IfOk};
ghost use Rattle.prefs_proto.specs.Encoded.{encoded};

use crate::pair::{pair_len, put_pair};
use prefs_model::PrefPair;
use std::alloc::{AllocError, Global};

/// How many bytes the text of the pairs has, at most 2^64 - 1.
#[tactic(auto, unfolding(crate::specs::Encoded::encoded))]
pub fn text_len(pairs: &[PrefPair]) -> u64
    ensures { result ≡ min (length (encoded pairs.now)) (2 ^ 64 - 1) }
{
    let mut len = 0u64;
    for pair in pairs {
        len = len.saturating_add(pair_len(pair));
    }
    len
}

/// The text of the pairs.
#[tactic(auto, unfolding(crate::specs::Encoded::encoded))]
pub fn text_of(alloc: Global, pairs: &[PrefPair]) -> Result<Vec<u8>, AllocError>
    ensures { IfOk result (λ text. text.items ≡ encoded pairs.now) }
{
    let mut out = Vec::with_capacity(alloc, text_len(pairs) as usize)?;
    for pair in pairs {
        put_pair(&mut out, pair)?;
    }
    Ok(out)
}
