//! Register sets of ptrace: what a tracer reads and writes of a stopped task. The crate's contract is that of the private task:
//! `get` writes the bytes that the definition gives, and `set` leaves a task that stands for the private task after the set, or
//! answers the test that the bytes fail. It stands on the tasks of `xs_task` and the images of `xs_image`; no processor is in it.
#![tactic(auto)]

mod legacy;
mod marks;
mod reading;
mod writing;

pub use reading::get;
pub use writing::set;
pub use xs_image::{RegsetError, errno};
