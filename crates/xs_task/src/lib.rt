//! Tasks as the kernel keeps them: a save area, two memories and a few numbers. The crate's contract is what a task stands
//! for: while it is parked, its area and its PKRU stand for the registers of a private task, which `xs_base` defines. It
//! stands on the areas of `xs_area`; no processor is in it.
#![tactic(auto)]

mod forking;
mod laws;
mod memory;
mod putting;
mod task;

pub use forking::{copy_lease, fork_into, inherit};
pub use laws::{a_saved_task_is_parked, an_area_has_its_places};
pub use memory::Mem;
pub use putting::put_parts;
pub use task::Task;
pub use xs_area::{Area, Class, Lease};
