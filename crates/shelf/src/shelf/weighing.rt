ghost use Rattle.std.specs.Prelude.{◌≡◌, ◌-◌, ◌^◌, min, length};
ghost use Rattle.hist_journal.specs.Folds.{kind_weight};
ghost use Rattle.hist_journal.specs.View.{kind_seen};

use hist_journal::Kind;
use store_traits::{Codec, Transform};

/// What an entry of this kind weighs in a history, at most 2^64 - 1: a transform its weight, a value the length of its
/// text, and everything else nothing.
#[tactic(auto, unfolding(hist_journal::specs::Folds::kind_weight))]
pub(super) fn weight_of<C: Codec, T: Transform<Value = C::Value>>(
    codec: &C,
    kind: &Kind<C::Value, T>,
) -> u64
    ensures { result ≡ min (kind_weight T.weight_of (λ v. length (C.encoded codec.now v)) (kind_seen kind.now)) (2 ^ 64 - 1) }
{
    match kind {
        Kind::Edit(transform) | Kind::Same(transform) => u64::from(transform.weight()),
        Kind::Replace(value) | Kind::Migrate(_, value) => codec.encoded_len(value),
        _ => 0,
    }
}
