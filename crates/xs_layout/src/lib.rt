//! Machines' tables of components: which components a machine has, their sizes, and where each stands in the
//! standard and in the compacted format of an area. A layout is a list of rows that passes every test of a table.
#![tactic(auto)]

mod checks;
mod cursor;
mod layout;
mod places;

pub use checks::{component_size, row_error, table_error};
pub use cursor::Cursor;
pub use layout::{Layout, MOST_ROWS};
pub use xs_base::{LayoutError, LayoutFault, Row};
