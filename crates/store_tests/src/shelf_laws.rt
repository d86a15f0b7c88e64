//! The laws of `shelf` and what follows of them for a cache, called at the types of its small store, its worked histories,
//! and the worked runs of `step_table`.
use node_core::looks_find_what_is_now;
use prefs_edit::Edit;
use prefs_proto::PrefsCodec;
use shelf::{
    ExampleEdit, calls_end, causes_have_a_test, changes_are_raised, counts_rise,
    histories_are_lawful, histories_are_unlawful, histories_come_to, images_go_on,
    images_hold_what_is_synced, lawful_has_a_test, longer_is_legal, numbers_never_fall,
    open_is_pending, prefix_is_legal, quiet_is_fresh, stores_have_their_base, updates_end_once,
};
use step_table::{
    runs_follow_the_table, runs_start_where_a_session_begins, wrong_turns_are_refused,
};

#[test]
fn the_laws_are_those_of_concrete_stores() {
    prefix_is_legal::<u64, ExampleEdit, ()>();
    longer_is_legal::<u64, ExampleEdit, ()>();
    open_is_pending::<u64, ExampleEdit, ()>();
    quiet_is_fresh::<u64, ExampleEdit, ()>();
    images_go_on::<u64, ExampleEdit, ()>();
    images_hold_what_is_synced::<u64, ExampleEdit, ()>();
    lawful_has_a_test::<u64, ExampleEdit, ()>();
    causes_have_a_test::<PrefsCodec, Edit, ()>();
    looks_find_what_is_now::<u64, ExampleEdit, ()>();
}

#[test]
fn the_laws_of_two_entries_are_those_of_concrete_stores() {
    numbers_never_fall::<u64, ExampleEdit, ()>();
    calls_end::<u64, ExampleEdit, ()>();
    updates_end_once::<u64, ExampleEdit, ()>();
    counts_rise::<u64, ExampleEdit, ()>();
    changes_are_raised::<u64, ExampleEdit, ()>();
}

#[test]
fn the_worked_histories_stand() {
    histories_are_lawful();
    histories_are_unlawful();
    histories_come_to();
    stores_have_their_base();
}

#[test]
fn the_worked_runs_stand() {
    runs_follow_the_table();
    runs_start_where_a_session_begins();
    wrong_turns_are_refused();
}
