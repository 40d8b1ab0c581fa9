//! Images in the standard format that come from outside a kernel or go there: the words of a signal frame, what a frame has for a
//! return, and the tests of a register set's bytes. The crate's contract is that of the definitions of frames and register sets in
//! `xs_base`. It stands on the machine's table in `xs_layout` and on the check of images in `xs_area`; no task is in it, and no bank.
#![tactic(auto)]

mod checking;
mod image;
mod user;
mod words;

pub use checking::{RegsetError, errno, read_fx, read_xstate};
pub use image::{Image, Restored, read_frame};
pub use user::{user_features, user_size};
pub use words::put_words;
