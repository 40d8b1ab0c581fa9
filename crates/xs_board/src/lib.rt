//! The board: the history that the processors write together, the tasks that are home, what each block does, the ready list and
//! the pool of save areas. A processor takes a task from it, with the signal that is due, and brings it back with the lines that
//! ran. What reaches another block happens at that commit: a fork, a signal that is sent, and tracing, in which a child stops, its
//! parent waits for it, reads and writes its registers and lets it go on. The crate's contract is that the history is legal: each
//! event is a step of the private machine of `xs_model`, and each task that is home stands for that machine's private task. It
//! stands on scripts and the machine in `xs_model`, on tasks in `xs_task`, on register sets in `xs_regset`, on tiles in `xs_tile` and on
//! the pool of `xs_pool`.
#![tactic(auto)]

mod board;
mod deed;
mod doing;
mod laws;
mod member;
mod opening;
mod putting;
mod registers;
mod sharing;
mod telling;
mod trapping;
mod turn;

pub use board::Board;
pub use laws::lines_follow;
pub use turn::{Close, Entries, Entry, Taken, Turn};
