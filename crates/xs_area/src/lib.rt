//! Save areas, the memory that XSAVE and its kin write, in the standard and in the compacted format. The crate reads
//! an area's header, checks images from outside, writes the standard bytes of what an area stands for, and makes an
//! area stand for the parts of an image or for what another area stands for. It stands on the machine's table in
//! `xs_layout`; what areas, images and standard bytes mean stands in `xs_base`, and that is the crate's contract.
#![tactic(auto)]

mod area;
mod check;
mod copies;
mod kernel;
mod laws;
mod readable;
mod standard;

pub use area::{Area, Lease, mxcsr, xcomp_bv, xstate_bv};
pub use check::read_standard;
pub use copies::{compact_of, copy_area};
pub use kernel::{class_features, class_size, compacted, make_initial};
pub use laws::{a_file_can_be_cut, parts_have_a_file};
pub use readable::{has_named_places, stands};
pub use standard::standard_of;
pub use xs_base::{Class, HeaderError, Origin, Parts};
