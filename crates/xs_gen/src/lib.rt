//! The generator of scripts: of each number of 32 bits one script of 64 tasks that use registers of every kind. The crate
//! stands on the types of scripts in `xs_model` and on the lines of `xs_script`, and writes a script by `xs_outside`. Its contract
//! is the definition of the script's text in `specs/Generated`, and the law that every such text spells a script.
#![tactic(auto)]

mod call;
mod draws;
mod generator;
mod laws;
mod lines;
mod names;
mod task;
#[cfg(test)]
mod tests;

pub use call::gen_call;
pub use generator::generate;
pub use laws::{every_number_has_a_script, no_number_is_refused};
