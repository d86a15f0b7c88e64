//! What a script asks for: its mode, how it starts, and the sessions with their lines.

mod mode;
mod run_line;
mod script;
mod series;
mod session_plan;
mod start;

pub use mode::Mode;
pub use run_line::{Act, RunLine};
pub use script::Script;
pub use series::Series;
pub use session_plan::SessionPlan;
pub use start::Start;
