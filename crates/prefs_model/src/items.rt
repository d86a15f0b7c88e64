//! What is done with all items of a slice or a vector.
ghost use Rattle.std.specs.Prelude.{◌≡◌, ◌↔◌, List, ℕ, reverse, IsTrue, IfOk};
ghost use Rattle.prefs_model.specs.Rising.{IsRising, key_cmp, value_under};

use crate::keyed::Keyed;
use std::alloc::{AllocError, Global};
use std::cmp::Ordering;

/// Whether both have the same items.
pub fn equal<T: Keyed>(a: &[T], b: &[T]) -> bool
    ensures { IsTrue result ↔ (a.now ≡ b.now) }
{
    if a.len() != b.len() {
        return false;
    }
    for place in 0..a.len() {
        if !a[place].is_equal_to(&b[place]) {
            return false;
        }
    }
    true
}

/// Equal items.
pub fn try_copy<T: Keyed>(alloc: Global, items: &[T]) -> Result<Vec<T>, AllocError>
    ensures { IfOk result (λ copy. copy.items ≡ items.now) }
{
    let mut copy = Vec::with_capacity(alloc, items.len())?;
    for item in items {
        copy.push(item.try_copy(alloc)?)?;
    }
    Ok(copy)
}

/// The last item of each key, in rising order, by one stable sort.
pub fn last_of_each_key<T: Keyed>(mut items: Vec<T>) -> Result<Vec<T>, AllocError>
    ensures rising { IfOk result (λ sorted. IsRising T.key_of sorted.items) }
    ensures last { IfOk result (λ sorted. (key : List ℕ) → value_under T.key_of (λ item. item) sorted.items key ≡ value_under T.key_of (λ item. item) (reverse items.items) key) }
{
    // Behind the last item of a key stand its other ones, which go.
    items.reverse();
    items.sort_by(
        |a, b| -> Ordering
            ensures { result ≡ key_cmp (T.key_of a.now) (T.key_of b.now) }
        { a.sort_key().cmp(b.sort_key()) },
    )?;
    items.dedup_by(|later, kept| later.sort_key() == kept.sort_key());
    Ok(items)
}
