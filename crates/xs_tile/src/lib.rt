//! Tiles on first use: leave to use TILEDATA, what a task lacks where an instruction of the tiles raises #NM, and its growth into
//! an area with room for them. The crate's contract is that of the private task: `request` gives the leave exactly where the
//! definition does, and `grow` leaves a task that stands for the private task with room for tiles. It stands on the tasks of
//! `xs_task`; no processor and no pool is in it.
#![tactic(auto)]

mod growing;
mod laws;
mod permission;

pub use growing::grow;
pub use laws::growth_keeps_the_marks;
pub use permission::{Need, first_use, request};
