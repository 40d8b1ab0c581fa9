//! The command that writes a script.

ghost use Rattle.std.specs.Prelude.{◌≡◌};
ghost use Rattle.xs_outside.specs.Outside.{output_of};
ghost use Rattle.xs_gen.specs.Call.{GenEnds};

use crate::generator::generate;
use std::alloc::Global;
use xs_io::Sink;
use xs_outside::{Status, write_lines};

/// Writes the script of the number to the sink, line by line: each line is handed to it whole, and its rest again where fewer bytes
/// were taken. Nothing is written where there is no memory for the script.
pub fn gen_call<K: Sink>(alloc: Global, number: u32, sink: &mut K) -> Status
    ensures { GenEnds number (output_of K.Sink sink.old) (output_of K.Sink sink.new) result }
{
    let Ok(text) = generate(alloc, number) else {
        return Status::NoMemory;
    };
    match write_lines(sink, text.as_slice()) {
        Ok(()) => Status::Done,
        Err(_) => Status::WriteFault,
    }
}
