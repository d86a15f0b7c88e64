//! Updates as machines of single steps: whoever has the shelf may let any of the calls in progress do its next one. It
//! stands on `shelf`.
//! Its one contract above: a step is its row of the step table (`UpdateCall::step`).
#![tactic(auto)]

mod applying;
mod change;
mod init_call;
mod laws;
mod locking;
mod origin;
mod read_call;
mod read_errors;
mod reading;
mod restarting;
mod update_call;
mod write_call;

pub use laws::{
    calls_stay_ready, looks_find_what_is_now, new_calls_are_ready, turns_spare_other_calls,
};
pub use read_call::ReadCall;
pub use read_errors::as_update_error;
pub use restarting::restart;
pub use step_table::Progress;
pub use update_call::UpdateCall;
