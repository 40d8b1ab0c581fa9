//! Switches of a task's registers between its save area and a processor, over any bank. The crate's contract is that of the
//! private task: while the task runs, the bank holds its registers or its area stands for them, and after its turn the parked
//! task stands for it; each call says what the bank counts. It stands on the tasks of `xs_task` and the banks of `xs_bank`.
#![tactic(auto)]

mod arm;
mod entering;
mod leaving;
mod pkru;
mod restoring;
mod saving;
mod section;
mod taking;

pub use entering::{resume, switch_in};
pub use leaving::{save_task, switch_out};
pub use pkru::{give_pkru, to_kernel};
pub use restoring::restore;
pub use section::{kernel_section, thread_section};
pub use xs_task::{fork_into, inherit};
