//! The settings in memory: keys, values, sets of texts, and the map from keys to values. It stands on std alone.
//! The one contract above it is that a map is a list of pairs whose keys rise strictly.
#![tactic(auto)]

mod entries;
mod first_values;
mod items;
mod keyed;
mod map_laws;
mod pref_entry;
mod pref_key;
mod pref_map;
mod pref_pair;
mod pref_text;
mod pref_value;
mod set_laws;
mod sorted_vec;
mod text_set;

pub use entries::Entries;
pub use keyed::Keyed;
pub use map_laws::{one_map, pairs_are_values, values_after_remove, values_after_set};
pub use pref_entry::PrefEntry;
pub use pref_key::{KeyTooLong, MAX_KEY_LEN, PrefKey};
pub use pref_map::PrefMap;
pub use pref_pair::PrefPair;
pub use pref_text::PrefText;
pub use pref_value::PrefValue;
pub use set_laws::{one_set, texts_after_insert, texts_after_remove, texts_are_members};
pub use text_set::TextSet;
