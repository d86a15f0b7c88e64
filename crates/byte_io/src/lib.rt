//! Where bytes come from and where they go: sources, sinks, and reading or writing all of something.
//! It stands on `store_traits`.
//! Its contracts above are which bytes a source gave and a sink took, and why a call failed.
#![tactic(auto)]

mod fault_plan;
mod mem_sink;
mod mem_source;
mod never_fails;
mod read_all_error;
mod reading;
mod sink;
mod source;
mod std_sink;
mod std_source;
#[cfg(test)]
mod tests;
mod unread;
mod writing;

pub use mem_sink::MemSink;
pub use mem_source::MemSource;
pub use never_fails::NeverFails;
pub use read_all_error::ReadAllError;
pub use reading::read_all;
pub use sink::Sink;
pub use source::Source;
pub use std_sink::StdSink;
pub use std_source::StdSource;
pub use writing::write_all;
