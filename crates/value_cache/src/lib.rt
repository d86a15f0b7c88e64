//! What a process keeps of the last value that it read under the lock or wrote, so that a later read needs no file. It
//! stands on `hist_journal`, for what a value is of, and on `store_traits`.
//! Its one contract above: `publish` keeps the greater version, and at equal ones the old value.
#![tactic(auto)]

mod cache;
mod cached_value;
mod laws;
#[cfg(test)]
mod tests;

pub use cache::Cache;
pub use cached_value::CachedValue;
pub use laws::caches_stay_true;
