//! Which transcripts tell the truth of their scripts, and which do not: the tests that tell it, and worked examples of both.

mod truth_examples;
mod truth_tests;
mod untrue_examples;

pub use truth_examples::transcripts_are_good;
pub use truth_tests::{histories_have_tests, truth_has_tests};
pub use untrue_examples::{
    untrue_answers, untrue_causes, untrue_failures, untrue_files, untrue_jobs, untrue_orders,
    untrue_reads, untrue_sessions, untrue_updates,
};
