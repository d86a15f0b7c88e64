//! Runs of the step table on the small store of the worked histories: the turns of each, from the world in which it starts
//! to the one in which it ends. The histories that they leave are among the lawful ones.
ghost use Rattle.store_traits.specs.declared.update_error.UpdateError.TheVariants.{Died};
ghost use Rattle.shelf.specs.ExampleStore as example;
ghost use Rattle.step_table.specs.Calls.{Failed, Gave, Restarted, Updated};
ghost use Rattle.step_table.specs.ExampleTurns as turns;
ghost use Rattle.step_table.specs.declared.progress.Progress.TheVariants.{Moved, Blocked, Ended};
ghost use Rattle.step_table.specs.Runs.{Run};
ghost use Rattle.step_table.specs.SingleTurns as single;
ghost use Rattle.step_table.specs.Turn.{Turn};
ghost use Rattle.step_table.specs.World.{Begins};

/// Each run follows the table, turn by turn.
pub fn runs_follow_the_table()
    ensures two_nodes { Run turns.rules example.empty turns.two_nodes turns.two_nodes_start turns.two_nodes_end }
    ensures equal_value { Run turns.rules example.holds_one turns.equal_value turns.equal_value_start turns.equal_value_end }
    ensures reads_past { Run turns.rules example.empty turns.reads_past turns.reads_past_start turns.reads_past_end }
    ensures full_history { Run turns.rules turns.narrow turns.full_history turns.full_history_start turns.full_history_end }
    ensures death_after_raise { Run turns.rules turns.deadly turns.death_after_raise turns.death_start turns.death_end }
    ensures restart { Run turns.rules turns.short_lived turns.restart turns.restart_start turns.restart_end }
    ensures rename_fails { Run turns.rules example.empty turns.rename_fails turns.rename_fails_start turns.rename_fails_end }
    ensures sync_fails { Run turns.rules example.empty turns.sync_fails turns.sync_fails_start turns.sync_fails_end }
{}

/// The worlds in which they start are those in which a session of their store begins.
pub fn runs_start_where_a_session_begins()
    ensures empty { Begins example.empty (turns.at_start example.empty) }
    ensures holds_one { Begins example.holds_one (turns.at_start example.holds_one) }
    ensures narrow { Begins turns.narrow (turns.at_start turns.narrow) }
    ensures deadly { Begins turns.deadly (turns.at_start turns.deadly) }
    ensures short_lived { Begins turns.short_lived (turns.at_start turns.short_lived) }
{}

/// A call of a node's former life ends; and none of the other turns follows the table.
pub fn wrong_turns_are_refused()
    ensures former_life_ends { Turn turns.rules example.empty single.former_life_ends (Ended (Failed (Died 3))) }
    ensures former_life_goes_on { Turn turns.rules example.empty single.former_life_goes_on Moved → ⊥ }
    ensures lock_taken_from_another { Turn turns.rules example.empty single.lock_taken_from_another Moved → ⊥ }
    ensures acknowledged_without_sync { Turn turns.rules example.empty single.acknowledged_without_sync (Ended (Updated 1)) → ⊥ }
    ensures unlocked_read_takes_lock { Turn turns.rules example.empty single.unlocked_read_takes_lock Moved → ⊥ }
    ensures read_keeps_lock { Turn turns.rules example.empty single.read_keeps_lock (Ended (Gave 0 0)) → ⊥ }
    ensures ready_read_waits { Turn turns.rules example.empty single.ready_read_waits Blocked → ⊥ }
    ensures lock_left_held { Turn turns.rules turns.deadly single.lock_left_held (Ended (Failed (Died 3))) → ⊥ }
    ensures death_strikes_twice { Turn turns.rules turns.deadly single.death_strikes_twice (Ended (Failed (Died 3))) → ⊥ }
    ensures dead_call_frees_lock { Turn turns.rules example.empty single.dead_call_frees_lock (Ended (Failed (Died 3))) → ⊥ }
    ensures living_node_restarted { Turn turns.rules example.empty single.living_node_restarted (Ended (Restarted 1)) → ⊥ }
{}
