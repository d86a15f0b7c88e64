//! Who owns the lock on the main file. It stands on `store_traits`.
//! Its one contract above: there is one owner at most, and `try_lock` is false exactly where another call
//! owns the lock.
#![tactic(auto)]

mod lock_table;

pub use lock_table::LockTable;
