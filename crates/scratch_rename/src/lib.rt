//! One write of the main file in typed states: `Fresh`, `Filled`, `Synced`, `Renamed`, `Kept`. It stands on
//! `folder_disk`, and on `store_traits` for the bytes.
//! Its one contract above: each call makes one call of the folder, says what the folder is after it, also
//! where that failed, and hands a failed plan back as it was.
#![tactic(auto)]

mod filled;
mod fresh;
mod kept;
mod renamed;
mod synced;
#[cfg(test)]
mod tests;

pub use filled::Filled;
pub use fresh::Fresh;
pub use kept::Kept;
pub use renamed::Renamed;
pub use synced::Synced;
