//! Signal frames: their delivery into the memory of a task, and the return from them, over any bank. The crate's contract is that
//! of the private task: a delivery leaves the task that has the frame and whose handler begins, and a return leaves the one that
//! goes on with what its frame has, or with initial registers where the frame is refused; each call says what the bank counts. It
//! stands on the tasks of `xs_task`, the switches of `xs_switch` and the images of `xs_image`.
#![tactic(auto)]

mod delivery;
mod frame;
mod initial;
mod laws;
mod returning;
mod taking;

pub use delivery::deliver;
pub use laws::a_return_undoes_a_delivery;
pub use returning::sigreturn;
pub use xs_image::Restored;
