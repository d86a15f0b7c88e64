//! What neither contracts nor data say of scripts, transcripts and the commands: texts that are read and printed, devices
//! that fail, limits, sources without an end. It stands on all that it tests, and has tests alone. A row is a text, which is
//! read as the test runs.
#![tactic(auto)]

#[cfg(test)]
mod command;
#[cfg(test)]
mod endless;
#[cfg(test)]
mod faults;
#[cfg(test)]
mod large;
#[cfg(test)]
mod replays;
#[cfg(test)]
mod rows;
#[cfg(test)]
mod scripts_read;
#[cfg(test)]
mod transcripts_written;
