//! What every layer speaks of: components of the register state and sets of them, lanes, and the small types
//! that scripts, events and answers share. The definitions of the layers stand in `specs/`, one file a noun,
//! over plain lists and numbers. The crate's contract is that a lane is a list of bytes.
#![tactic(auto)]

mod bytes;
mod class;
mod component;
mod header;
mod lane;
mod layout_error;
mod little_endian;
mod mxcsr;
mod task;
mod words;
mod zeros;

pub use bytes::{
    after, clean, clear, cut_at, pkru_bytes, put, put_component, put_control, put_initial,
    put_initial_component, put_number,
};
pub use class::Class;
pub use component::{Comp, Features, Place, Row};
pub use header::{HeaderError, Origin, Parts};
pub use lane::Lane;
pub use layout_error::{LayoutError, LayoutFault};
pub use little_endian::four_bytes_again;
pub use mxcsr::{INITIAL_MXCSR, MOST_MXCSR};
pub use task::{START_PKRU, a_root_task_is_valid, the_initial_file_is_valid};
pub use words::{Errno, How, Set, Signo};
pub use zeros::are_zero;
