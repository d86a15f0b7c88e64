//! Scripts with what came of them, to check by which transcripts are held to tell the truth.
ghost use Rattle.script_lang.specs.Good.{Good};
ghost use Rattle.script_lang.specs.TruthExamples as example;

/// Each of these transcripts tells the truth of its script.
pub fn transcripts_are_good()
    ensures two_nodes { Good example.basis example.two_nodes (example.told example.two_nodes_told) }
    ensures equal_value { Good example.basis example.equal_value (example.told example.equal_value_told) }
    ensures greatest { Good example.basis example.greatest (example.told example.greatest_told) }
    ensures death_and_stop { Good example.basis example.death_and_stop example.death_and_stop_told }
    ensures sync_failed { Good example.basis example.sync_failed (example.told example.sync_failed_told) }
    ensures restart { Good example.basis example.restart (example.told example.restart_told) }
    ensures flows { Good example.basis example.flows (example.told example.flows_told) }
    ensures two_posts { Good example.basis example.two_posts (example.told example.two_posts_told) }
{}
