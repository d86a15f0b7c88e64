//! A room: callers take turns with one value, in the order of their tickets, and any caller loads the version
//! without waiting. It stands on `hist_journal` and `store_traits`, and on `atomic_table` for its single steps.
//! Its one contract above: what each pass knows, by every call from `Room::new` to `Room::close`.
#![tactic(auto)]

mod note;
mod pass;
mod plays;
mod room;
mod rule;
#[cfg(test)]
mod tests;
mod turn;
mod turn_word;
mod view;

pub use note::Note;
pub use pass::Pass;
pub use room::Room;
pub use turn::Turn;
pub use turn_word::Entered;
pub use view::{Begun, Known, Stage, View, ViewOf};
