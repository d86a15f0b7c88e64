//! What a turn of a call may do: the table of the steps, a row for each, and the rules of every turn. It stands on `shelf`
//! for what a lawful history is, and on `folder_disk`, `scratch_rename` and `file_lock` for what a turn sees.
//! Its contracts are laws of all turns (`laws`) and worked runs (`examples`); `node_core` makes the turns.
#![tactic(auto)]

mod examples;
mod laws;
mod progress;

pub use examples::{
    runs_follow_the_table, runs_start_where_a_session_begins, wrong_turns_are_refused,
};
pub use laws::{
    ended_calls_own_nothing, owners_are_alive, turns_leave_the_lock, turns_only_add,
    turns_wait_exactly, versions_count_raises, want_of_memory_changes_nothing,
};
pub use progress::Progress;
