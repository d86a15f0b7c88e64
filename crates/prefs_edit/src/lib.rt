//! Edits of a map of settings: 1 to 16 steps, done in order, of which the first that refuses refuses the whole.
//! It stands on `prefs_model` and on the trait `Transform` of `store_traits`.
//! The one contract above it is what an edit makes of a map, `after_steps`, and what it weighs, `edit_weight`.
#![tactic(auto)]

mod add;
mod apply;
mod edit;
mod edit_error;
mod edit_laws;
mod edit_step;
mod kinds;
mod require;
mod set;
mod stop;
mod texts;
mod toggle;
mod weight;

pub use edit::{Edit, MAX_STEPS, MAX_WEIGHT};
pub use edit_error::EditError;
pub use edit_laws::{edits_in_turn, keys_left_alone, maps_stay_maps, same_values};
pub use edit_step::EditStep;
