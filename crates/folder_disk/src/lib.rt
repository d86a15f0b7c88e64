//! The folder that holds the settings: its main file, the scratch file beside it, and what a machine
//! stop may leave. It stands on `store_traits`.
//! The one contract above it is the trait `Folder`: what each call does to the three, and why it fails.
#![tactic(auto)]

mod call;
mod fault_plan;
mod folder;
mod fuse_folder;
mod main_file;
mod main_read;
mod mains;
mod mem_folder;
mod mem_scratch;
mod std_folder;
#[cfg(test)]
mod tests;

pub use call::{CallCounts, FolderCall, Planned};
pub use folder::Folder;
pub use fuse_folder::FuseFolder;
pub use main_read::{MainRead, ReadMainError};
pub use mem_folder::MemFolder;
pub use std_folder::StdFolder;
