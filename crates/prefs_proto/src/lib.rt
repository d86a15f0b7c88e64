//! Settings as bytes: the message `PreferenceMap` of Android DataStore's `preferences.proto`. It stands on
//! `wire_codec` for the fields, on `prefs_model` for the map and on `store_traits`.
//! Its contracts above are that of `decode_detail`, which map the bytes read as or why they read as none, and
//! that of `encode`, the one text of a map; the laws tie the two together.
#![tactic(auto)]

mod decode_error;
mod draft;
mod field;
mod laws;
mod map_text;
mod nested;
mod pair;
mod prefs_codec;
mod read_entry;
mod read_map;
mod read_set;
mod read_text;
mod read_value;
mod set;
mod stop;
mod tag;
mod unfit;
mod value;

pub use decode_error::DecodeError;
pub use laws::{map_is_read, one_map_read, one_refusal, written_is_read};
pub use prefs_codec::PrefsCodec;
