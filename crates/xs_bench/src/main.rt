//! `xs_bench`: prints the table of a machine or the places of its components, or makes one of the calls of the layers many
//! times so that a clock can tell its time.
#![tactic(auto)]

mod banks;
mod command;
mod growing;
mod inputs;
mod lines;
mod repeats;
mod sets;
mod signals;
mod text;

use crate::command::{Command, parse};
use crate::repeats::repeat;
use crate::text::{push_places, push_table};
use std::alloc::AllocError;
use std::env;
use std::fmt::Write;
use std::io::{self, ErrorKind};
use std::process::ExitCode;

/// What answers other words than a command.
const USAGE: &str = "\
usage: xs_bench layout MACHINE
       xs_bench places MACHINE MASK
       xs_bench repeat CALL N
       xs_bench repeat BANK-INSTRUCTION N
       xs_bench repeat STEP-CLASS N
MACHINE: amx, avx
MASK: the number of a set of components, in decimal
N: how many times the call is made
CALL: standard-into, standard-of, compact-of, copy-area, get-xstate, set-xstate, grow, copy, copy-compacted, copy-small, copy-one, copy-header, nothing, write-event, copy-event
BANK: plain, track
INSTRUCTION: xsaves-full, xsaves-one, xsaves-unmodified, xsaves-initial, xrstors-full, xrstors-one, xrstors-initial
STEP: signal, sigreturn
CLASS: small, large
";

/// Does what the command line asks. The status is 0, 64 for words that are no command, 6 where there was no memory, 5
/// where standard output failed, and 70 where the inputs of a call don't meet its conditions.
fn main(rt: HostRuntime) -> ExitCode {
    match answer(&rt) {
        Ok(status) => ExitCode::from(status),
        Err(fault) if fault.kind() == ErrorKind::OutOfMemory => ExitCode::from(6),
        Err(_) => ExitCode::from(5),
    }
}

/// Answers the command line: prints what it asks for at once.
fn answer(rt: &HostRuntime) -> io::Result<u8> {
    let command = parse(&command_line(rt)?);
    let mut text = String::new(rt.alloc());
    let status = obey(command, &mut text)?;
    rt.print(text.as_str())?;
    Ok(status)
}

/// Does what a command asks, appends what it prints, and gives the status.
fn obey(command: Option<Command>, text: &mut String) -> Result<u8, AllocError> {
    match command {
        Some(Command::Layout(machine)) => push_table(text, &machine.layout())?,
        Some(Command::Places(machine, mask)) => push_places(text, machine, mask)?,
        Some(Command::Repeat(call, turns)) => match repeat(*text.allocator(), call, turns)? {
            Some(sum) => writeln!(text, "{sum}")?,
            None => return Ok(70),
        },
        None => {
            text.push_str(USAGE)?;
            return Ok(64);
        }
    }
    Ok(0)
}

/// The words of the command line, without the program's name: none where one of them is no text, so that they are no
/// command.
fn command_line(rt: &HostRuntime) -> Result<Vec<String>, AllocError> {
    match env::args(rt) {
        Ok(all) => all.skip(1).collect(rt.alloc()),
        Err(fault) if fault.kind() == ErrorKind::OutOfMemory => Err(AllocError),
        Err(_) => Ok(Vec::new(rt.alloc())),
    }
}
