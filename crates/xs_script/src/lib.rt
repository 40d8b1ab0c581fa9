//! The script reader: a text is the one script that it spells, or it has one first refusal. The crate stands on the types of
//! scripts in `xs_model` and the names of registers in `xs_regs`. Its contract is the grammar in `specs/`: `Grammar` says
//! which text spells a script, and `Refusal` which line refuses it.
#![tactic(auto)]

mod begun;
mod block_part;
mod body;
mod commands;
mod front;
mod head;
mod line;
mod line_reader;
mod outline;
mod own_child;
mod reader;
mod refusal;
mod schedule;
mod trace_lines;
mod words;

pub use reader::{every_text, not_both, one_refusal, one_script, read_script};
pub use refusal::{Kind, LimitName, RefusalLine, ScriptError, write_refusal};
pub use words::read_number;
