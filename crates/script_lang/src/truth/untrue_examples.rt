//! Transcripts that do not tell the truth, each with the rule that it breaks.
ghost use Rattle.std.specs.Prelude.{[], ◌∷◌};
ghost use Rattle.script_lang.specs.Rules.{G1, G2, G3, G4, G5, G6, G7, G8, G9};
ghost use Rattle.script_lang.specs.TruthExamples as example;
ghost use Rattle.script_lang.specs.UntrueCauses as uncaused;
ghost use Rattle.script_lang.specs.UntrueExamples as untrue;
ghost use Rattle.script_lang.specs.UntrueExamples.{Untrue};

/// The sessions do not follow one another, or a history is not lawful.
pub fn untrue_sessions()
    ensures base_from_the_end { Untrue G1 example.two_nodes (example.told untrue.base_from_the_end) }
    ensures stop_undid { Untrue G1 example.death_and_stop untrue.stop_undid }
    ensures session_missing { Untrue G1 example.death_and_stop untrue.session_missing }
    ensures stop_at_the_end { Untrue G1 untrue.stop_at_the_end (example.told example.two_nodes_told) }
    ensures stop_missing { Untrue G1 untrue.stop_missing example.death_and_stop_told }
    ensures raise_left_out { Untrue G1 example.two_nodes (example.told untrue.raise_left_out) }
    ensures done_again { Untrue G1 untrue.add_unsynced (example.told untrue.done_again) }
{}

/// The calls are not answered each once, in its place and by an answer of its form.
pub fn untrue_answers()
    ensures answer_missing { Untrue G2 example.two_nodes (example.told untrue.answer_missing) }
    ensures answers_out_of_order { Untrue G2 example.two_nodes (example.told untrue.answers_out_of_order) }
    ensures cut_without_stop { Untrue G2 example.two_nodes (example.told untrue.cut_without_stop) }
    ensures answered_twice { Untrue G2 example.two_nodes (example.told untrue.answered_twice) }
    ensures posted_update { Untrue G2 example.two_nodes (example.told untrue.posted_update) }
    ensures call_unasked { Untrue G2 example.two_nodes (example.told untrue.call_unasked) }
{}

/// What is acknowledged does not stand in the history.
pub fn untrue_updates()
    ensures edition_too_high { Untrue G3 example.two_nodes (example.told untrue.edition_too_high) }
    ensures synced_left_out { Untrue G3 example.two_nodes (example.told untrue.synced_left_out) }
    ensures edits_exchanged { Untrue G3 example.two_sets (example.told untrue.edits_exchanged) }
    ensures restart_denied { Untrue G3 example.restart (example.told untrue.restart_denied) }
    ensures restarted_another { Untrue G3 untrue.restart_of_the_first (example.told untrue.restarted_another) }
    ensures restarted_elsewhere { Untrue G3 example.restart (example.told untrue.restarted_elsewhere) }
{}

/// What is read is not the value of its edition.
pub fn untrue_reads()
    ensures map_of_no_edition { Untrue G4 example.update_then_read (example.told untrue.map_of_no_edition) }
    ensures map_of_another_edition { Untrue G4 example.update_then_read (example.told untrue.map_of_another_edition) }
    ensures edition_not_reached { Untrue G4 example.update_then_read (example.told untrue.edition_not_reached) }
    ensures flow_of_no_edition { Untrue G4 example.flows (example.told untrue.flow_of_no_edition) }
{}

/// A client is shown an older edition than before, or a flow the same value twice.
pub fn untrue_orders()
    ensures read_too_early { Untrue G5 example.update_then_read (example.told untrue.read_too_early) }
    ensures flow_twice { Untrue G5 example.flows (example.told untrue.flow_twice) }
    ensures unchanged_at_first { Untrue G5 example.flows (example.told untrue.unchanged_at_first) }
{}

/// An answer has no cause, or an edit in the history no call that may have it.
pub fn untrue_causes()
    ensures fault_without_entry { Untrue G6 example.two_nodes (example.told uncaused.fault_without_entry) }
    ensures unrefused { Untrue G6 example.two_nodes (example.told uncaused.unrefused) }
    ensures another_code { Untrue G6 example.greatest (example.told uncaused.another_code) }
    ensures another_edition { Untrue G6 example.greatest (example.told uncaused.another_edition) }
    ensures corrupt { Untrue G6 example.two_nodes (example.told uncaused.corrupt) }
    ensures read_corrupt { Untrue G6 example.update_then_read (example.told uncaused.read_corrupt) }
    ensures file_too_long { Untrue G6 example.two_nodes (example.told uncaused.file_too_long) }
    ensures read_file_too_long { Untrue G6 example.update_then_read (example.told uncaused.read_file_too_long) }
    ensures value_too_long { Untrue G6 example.two_nodes (example.told uncaused.value_too_long) }
    ensures read_value_too_long { Untrue G6 example.update_then_read (example.told uncaused.read_value_too_long) }
    ensures history_full { Untrue G6 example.two_nodes (example.told uncaused.history_full) }
    ensures read_history_full { Untrue G6 example.update_then_read (example.told uncaused.read_history_full) }
    ensures storage_fault { Untrue G6 example.two_nodes (example.told uncaused.storage_fault) }
    ensures read_storage_fault { Untrue G6 example.update_then_read (example.told uncaused.read_storage_fault) }
    ensures fault_behind_edit { Untrue G6 example.sync_failed (example.told uncaused.fault_behind_edit) }
    ensures not_durable { Untrue G6 example.two_nodes (example.told uncaused.not_durable) }
    ensures read_not_durable { Untrue G6 example.update_then_read (example.told uncaused.read_not_durable) }
    ensures another_uncertain { Untrue G6 example.sync_failed (example.told uncaused.another_uncertain) }
    ensures legacy_fault { Untrue G6 example.two_nodes (example.told uncaused.legacy_fault) }
    ensures read_legacy_fault { Untrue G6 example.update_then_read (example.told uncaused.read_legacy_fault) }
    ensures died { Untrue G6 example.two_nodes (example.told uncaused.died) }
    ensures read_died { Untrue G6 example.update_then_read (example.told uncaused.read_died) }
    ensures died_elsewhere { Untrue G6 example.restart (example.told uncaused.died_elsewhere) }
    ensures former_life { Untrue G6 example.restart (example.told uncaused.former_life) }
    ensures died_before_update { Untrue G6 uncaused.late_read (example.told uncaused.died_before_update) }
    ensures full { Untrue G6 example.two_posts (example.told uncaused.full) }
    ensures full_at_first { Untrue G6 example.two_posts (example.told uncaused.full_at_first) }
    ensures not_dead { Untrue G6 uncaused.late_restart (example.told uncaused.not_dead) }
    ensures not_dead_read { Untrue G6 uncaused.late_restart_read (example.told uncaused.not_dead_read) }
    ensures restarter_died { Untrue G6 uncaused.late_restart (example.told uncaused.restarter_died) }
    ensures edit_of_another { Untrue G6 example.death_and_stop (record example.death_and_stop_told { sessions = uncaused.edit_of_another ∷ example.read_told ∷ [] }) }
    ensures edit_of_a_read { Untrue G6 example.update_then_read (example.told uncaused.edit_of_a_read) }
{}

/// The actors did not do the posted jobs, each once and in order.
pub fn untrue_jobs()
    ensures job_dropped { Untrue G7 example.two_posts (example.told untrue.job_dropped) }
    ensures jobs_exchanged { Untrue G7 example.two_posts (example.told untrue.jobs_exchanged) }
    ensures actor_from_two { Untrue G7 example.two_posts (example.told untrue.actor_from_two) }
{}

/// A node died, or a device failed, otherwise than planned.
pub fn untrue_failures()
    ensures death_unplanned { Untrue G8 example.two_nodes (example.told untrue.death_unplanned) }
    ensures death_left_out { Untrue G8 untrue.death_left_out (example.told example.two_nodes_told) }
    ensures first_death_left_out { Untrue G8 untrue.first_death_left_out (example.told example.two_nodes_told) }
    ensures death_planned_writing { Untrue G8 untrue.death_planned_writing (example.told untrue.death_unplanned) }
    ensures death_planned_raising { Untrue G8 untrue.death_planned_raising (example.told untrue.death_behind_raise) }
    ensures fault_unplanned { Untrue G8 untrue.fault_unplanned (example.told example.sync_failed_told) }
{}

/// The file is not what the history comes to.
pub fn untrue_files()
    ensures file_of_the_start { Untrue G9 example.two_nodes (example.told untrue.file_of_the_start) }
    ensures another_file { Untrue G9 example.two_nodes (example.told untrue.another_file) }
    ensures file_said_too_long { Untrue G9 example.two_nodes (example.told untrue.file_said_too_long) }
{}
