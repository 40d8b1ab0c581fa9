//! One value shared by up to 16 processors, which take turns with it. A processor that has the turn has the whole
//! value, alone, and gives it back changed as the value's own two relations allow (`Kept`). In return each processor
//! knows, whatever the others did between two of its turns, how far the value may have moved. The crate stands on
//! `atomic_table`; its contract is the trait `Kept`, the words of `specs/Passes.antt` and the clauses of the five calls
//! of `Shared`. The rule of the table, `specs/Rule.antt`, holds between any two atomic steps.
#![tactic(auto)]

mod kept;
mod life;
mod pass;
mod rule;
mod shared;
#[cfg(test)]
mod tests;
mod turns;

pub use kept::Kept;
pub use pass::{Pass, Passes};
pub use rule::View;
pub use shared::Shared;
