//! `xstate`: runs a script of tasks on processors and writes its history.
#![tactic(auto)]

ghost use Rattle.std.specs.Prelude.{◌≡◌, drop};

use std::alloc::AllocError;
use std::env;
use std::io::{self, ErrorKind};
use std::process::ExitCode;
use std::sync::Wait;
use std::thread::Threads;
use xs_io::{StdSink, StdSource};
use xs_machine::OpenGate;
use xs_outside::Status;
use xs_top::{hand_on, processors, top};

/// Takes the command line, standard input and standard output, and ends with the status of the top call.
fn main(rt: HostRuntime) -> ExitCode {
    ExitCode::from(answer(&rt, &rt).code())
}

/// Answers the command line, with threads from the second handle. Where a word of it is no text, it's no command, as no words at all are none.
fn answer<T: Threads + Wait + Sync>(rt: &HostRuntime, threads: &T) -> Status {
    let alloc = rt.alloc();
    let line = match env::args(rt) {
        Ok(line) => line.collect::<Vec<String>>(alloc),
        Err(fault) if fault.kind() == ErrorKind::OutOfMemory => Err(AllocError),
        Err(_) => Ok(Vec::new(alloc)),
    };
    match line {
        Ok(line) => answer_words(rt, threads, behind_the_name(&line)),
        Err(_) => Status::NoMemory,
    }
}

/// The words of a command line behind the first one, which is the program's name.
fn behind_the_name(line: &[String]) -> &[String]
    ensures { result.now ≡ drop 1 line.now }
{
    match line {
        [_, words @ ..] => words,
        [] => line,
    }
}

/// Answers the words of a command.
fn answer_words<T: Threads + Wait + Sync>(
    rt: &HostRuntime,
    threads: &T,
    words: &[String],
) -> Status {
    let alloc = rt.alloc();
    let Ok(mut procs) = processors(alloc) else {
        return Status::NoMemory;
    };
    let Ok(mut sink) = StdSink::open(alloc, io::writer(rt)) else {
        return Status::NoMemory;
    };
    let mut source = StdSource::new(rt.reader());
    let status = top(
        threads,
        alloc,
        words,
        &mut source,
        &mut sink,
        &mut procs,
        &OpenGate,
    );
    hand_on(&mut sink, status)
}
