//! The top call: all that the program does, over any source, sink and banks. A command reads a script, runs it on the processors
//! and writes its history, or has a history checked or a script generated. The crate stands on the reader of scripts in `xs_script`,
//! the texts of `xs_text`, the runs of `xs_machine`, the checker of `xs_check`, the generator of `xs_gen`, and what `xs_outside` does
//! with the world outside. Its contract is the headline in `specs/`: what was written is the text of one whole history of the script
//! that was read, and each bank has counted and still holds what that history says.
#![tactic(auto)]

mod calls;
mod command;
mod demo;
mod handing;
mod history;
mod play;
mod playing;
mod procs;
mod reading;
mod running;
mod status;
mod summary;

pub use calls::{replay_call, top};
pub use handing::hand_on;
pub use procs::processors;
