//! What stands outside the program: an input read whole, a text written whole, and the exit statuses. It stands on the sources and
//! sinks of `xs_io`, and knows no script and no history.
#![tactic(auto)]

mod reading;
mod status;
mod telling;
mod writing;

pub use reading::{ReadError, SCRIPT_LIMIT, read_up_to};
pub use status::Status;
pub use telling::{tell, tell_too_long};
pub use writing::{write_all, write_lines};
