//! `xs_counts`: replays a script and prints its history, a line `%%`, and for each processor of the script a line with its
//! number and what its bank counted: loads, saves, instructions and the trail. An input that is no script is answered as
//! `xstate replay` answers it, and the status is that of this command.
#![tactic(auto)]

mod call;
mod held;
#[cfg(test)]
mod tests;
mod text;

use call::counts_call;
use std::io;
use std::process::ExitCode;
use xs_io::{StdSink, StdSource};
use xs_outside::Status;
use xs_top::{hand_on, processors};

/// Takes standard input and standard output, and ends with the status of the call.
fn main(rt: HostRuntime) -> ExitCode {
    ExitCode::from(answer(&rt).code())
}

/// Answers standard input.
fn answer(rt: &HostRuntime) -> Status {
    let alloc = rt.alloc();
    let Ok(mut procs) = processors(alloc) else {
        return Status::NoMemory;
    };
    let Ok(mut sink) = StdSink::open(alloc, io::writer(rt)) else {
        return Status::NoMemory;
    };
    let mut source = StdSource::new(rt.reader());
    let status = counts_call(alloc, &mut source, &mut sink, &mut procs);
    hand_on(&mut sink, status)
}
