//! Which event is a step of the machine in which each task owns a register file of its own (`xs_private`), what is wrong with an event
//! that is none, and what a step makes of the blocks. It knows no bank and no area. Its contract is the definition of steps and of their
//! effects in `xs_model`, and that of what is wrong in `specs/Wrong`. `Machine` follows a history by both; what it stands for is said in
//! `specs/Standing`.
#![tactic(auto)]

mod difference;
mod due;
mod effects;
mod giving;
mod judging;
mod laws;
mod line;
mod local_reply;
mod machine;
mod numbers;
mod outer_reply;
mod own;
mod parts;
mod reached;
mod start;
mod state;
mod wrong;

pub use effects::change;
pub use judging::judge;
pub use laws::wrong_once;
pub use machine::Machine;
pub use state::State;
pub use wrong::Wrong;
