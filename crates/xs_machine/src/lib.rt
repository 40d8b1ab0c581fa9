//! The machine's processors at work: each takes turns from the board, runs their lines on its bank and brings them back. The
//! crate's contract is that of `run_threads`, where each has a thread of its own, and of `run_schedule`: the history is whole, and each
//! bank has counted and still holds what the history says; that of `run_schedule` is the script's replay. It stands on the board of `xs_board`, on switches in `xs_switch`, on signal frames in
//! `xs_frame`, on leave for tiles in `xs_tile` and on any bank.
#![tactic(auto)]

mod entry;
mod gate;
mod lines;
mod marking;
mod proc;
mod registers;
mod round;
mod schedule;
mod script;
mod seats;
mod threads;
mod tiles;
mod turn;
mod worker;

pub use gate::{Gate, OpenGate, Point};
pub use proc::Proc;
pub use schedule::run_schedule;
pub use threads::run_threads;
