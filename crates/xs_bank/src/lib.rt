//! Banks: the extended registers of one processor, and what its instructions do. The crate's contract is the trait
//! `Bank`.
#![tactic(auto)]

mod bank;
mod bank_of;
mod checks;
mod choice;
mod cpu;
mod initial_area;
mod instruction;
mod laws;
mod loading;
mod registers;
mod saving;
mod tracking;
mod trail;

pub use bank::Bank;
pub use bank_of::{BankOf, PlainBank, TrackBank};
pub use cpu::Cpu;
pub use initial_area::InitialArea;
pub use instruction::{Execs, Trap};
pub use laws::an_area_of_the_registers_is_ready;
