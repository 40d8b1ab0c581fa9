//! The kernel's pool of save areas: an allocator that takes all its memory when it is opened, and then gives and takes
//! back areas of two lengths. The crate's contract is the definition of pools in `specs/Pool.antt`: which areas are out,
//! which numbers were given, and that each area given has no state. It stands on the areas of `xs_area`.
#![tactic(auto)]

mod pool;
mod shelf;

pub use pool::AreaPool;
pub use shelf::Full;
pub use xs_area::{Area, Class, Lease};
