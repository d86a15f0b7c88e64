//! The history of a session: entries, and a journal that grows at its end. It stands on `store_traits`.
//! Its one contract above: after a `reserve` a `push` cannot fail, and adds exactly its entry.
//! It has the folds of a history too, and `Listed`, what a value is that a room can hold.
#![tactic(auto)]

mod base;
mod bounds;
mod device;
mod entry;
mod fold_laws;
mod journal;
mod kind;
mod listed;
mod listed_journal;
mod pref_name;
mod reserve_error;
mod sections;
mod seen;

pub use base::Base;
pub use bounds::Bounds;
pub use device::Device;
pub use entry::Entry;
pub use fold_laws::{
    clearing_goes_on, edition_goes_on, main_goes_on, nodes_go_on, pending_goes_on, raises_go_on,
    value_goes_on, weight_goes_on,
};
pub use journal::Journal;
pub use kind::Kind;
pub use listed::Listed;
pub use pref_name::PrefName;
pub use reserve_error::ReserveError;
pub use sections::Sections;
pub use seen::{BaseSeen, EntrySeen, JournalHead, KindSeen};
