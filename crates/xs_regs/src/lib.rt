//! Registers by name, and register files: the bytes of every component, with MXCSR beside them. The crate stands on the
//! tables of `xs_layout`. Its contract is the definitions of names, files and standard bytes in `xs_base`: a name is
//! found exactly where the machine has the register, a write changes the bytes of one register alone, and a file goes
//! into the standard format byte by byte.
#![tactic(auto)]

mod file;
mod number;
mod register;
mod tables;

pub use file::File;
pub use register::{one_place, place_of, place_of_bytes};
pub use xs_base::Place;
