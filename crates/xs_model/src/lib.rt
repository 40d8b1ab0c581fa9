//! Scripts, events and the private machine: what a history of a script is, and which histories are legal, said of
//! a machine where every task owns a whole register file. It has no banks, save areas, owner marks or last
//! processors. The crate's contract is its definitions in `specs/`; the code has the types of scripts and
//! histories, what is looked up in them, and the laws of the machine, each on a function that a caller has it from.
#![tactic(auto)]

mod bound;
mod copying;
mod event;
mod items;
mod kinds;
mod laws;
mod lookup;
mod name;
mod pending;
mod script;
mod stage;

pub use bound::most_events;
pub use event::{Event, History, Reply, Why};
pub use items::Items;
pub use laws::{
    a_fork_bears, blocks_known, few_events, free_processors_known, large_known, lines_found,
    machine_known, named_known, never_idle, never_stuck, one_replay, ready_once, risers_known,
    signals_known, steps_known, task_stays, turns_known, two_numbers, unseen_stays, waits_known,
};
pub use name::Name;
pub use pending::add_signal;
pub use script::{Block, BlockKind, Command, Named, Order, Script};
pub use stage::Stage;
