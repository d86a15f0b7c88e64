//! What every layer of the store shares: names and answers of its calls, the bytes of a file, and the
//! traits of its parts. It stands on std alone.
//! Its contracts above are the laws of `Codec`, `Transform`, `Handler` and `Word`.
#![tactic(auto)]

mod applied;
mod codec;
mod decoded;
mod failed;
mod fault_count;
mod file_bytes;
mod given;
mod handler;
mod ids;
mod read_error;
mod step;
#[cfg(test)]
mod tests;
mod transform;
mod update_error;
mod word;

pub use applied::Applied;
pub use codec::Codec;
pub use decoded::Decoded;
pub use failed::Failed;
pub use fault_count::FaultCount;
pub use file_bytes::FileBytes;
pub use given::Given;
pub use handler::Handler;
pub use ids::{CallId, ClientId, NodeId};
pub use read_error::ReadError;
pub use step::Step;
pub use transform::Transform;
pub use update_error::UpdateError;
pub use word::{PlainWord, Word};
