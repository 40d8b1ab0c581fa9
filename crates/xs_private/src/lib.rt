//! User tasks, each as if it had a processor to itself: a register file of its own and what goes with it, without a save area or a
//! bank. The crate's contract is the definitions of private tasks in `xs_base`: each call does to a task just what its definition says.
//! It stands on the register files of `xs_regs`, and on the images of frames and register sets in `xs_image`.
#![tactic(auto)]

mod file;
mod frame;
mod image;
mod lines;
mod private;
mod sets;

pub use private::Private;
pub use xs_image::Restored;
