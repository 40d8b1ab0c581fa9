//! Readers and writers of std as sources and sinks.

ghost use Rattle.std.specs.Prelude.{◌≡◌, ◌<◌, [], length, IfOk, OnOk, IsErr};
ghost use Rattle.std.specs.Io.{WritesAtMost};
ghost use Rattle.std.specs.Io.KnownBytes.{Keeps, WriteAppends};
ghost use Rattle.xs_io.specs.Causes.{HasCause};
ghost use Rattle.xs_io.specs.Standard.{source_reader, source_faults, sink_writer, sink_faults, buffered};

use crate::fail_stop::FailStop;
use crate::failed::fault;
use crate::{Failed, Sink, Source};
use std::alloc::{AllocError, Global};
use std::io::{BufWriter, Read, Write};

/// A reader of std as a source: a read is one call of the reader's, and each error of it is a fault.
#[derive(Drop)]
pub struct StdSource<R> {
    reader: R,
    faults: u64,
}

impl<R: Read> StdSource<R> {
    /// A source over this reader, with no fault so far.
    pub fn new(reader: R) -> StdSource<R>
        ensures reader { source_reader result ≡ reader }
        ensures count { source_faults result ≡ 0 }
    {
        StdSource { reader, faults: 0 }
    }
}

impl<R: Read> Source for StdSource<R> {
    ghost left = { λ s. R.remaining (source_reader s) };

    ghost fault_count = { source_faults };

    fn read(&mut self, into: &mut [u8]) -> Result<usize, Failed> {
        match self.reader.read(into) {
            Ok(count) => Ok(count),
            Err(_) => Err(fault(&mut self.faults)),
        }
    }

    fn faults(&self) -> u64 {
        self.faults
    }
}

/// A writer of std as a sink, with a buffer between: the writer is called where the buffer is full, and by `flush`. Each
/// error of it is a fault, as is a call that takes nothing of a piece that is not empty. After a fault each call
/// fails, and nothing more is handed on, not even where the sink is dropped.
#[derive(Drop)]
pub struct StdSink<W: Write + Drop> {
    writer: BufWriter<FailStop<W>>,
    faults: u64,
}

impl<W: Write + Drop> StdSink<W> {
    /// A sink over this writer, with no fault so far. The memory of the buffer is taken here.
    pub fn open(alloc: Global, writer: W) -> Result<StdSink<W>, AllocError>
        ensures writer { IfOk result (λ sink. sink_writer sink ≡ writer) }
        ensures empty { IfOk result (λ sink. buffered sink ≡ []) }
        ensures count { IfOk result (λ sink. sink_faults sink ≡ 0) }
    {
        match BufWriter::new(alloc, FailStop::new(writer)) {
            Ok(writer) => Ok(StdSink { writer, faults: 0 }),
            Err(_) => Err(AllocError),
        }
    }

    /// Makes the writer hand on what it holds back; an error is a fault. A buffer that is dropped loses the error of
    /// its last write, so this comes before the end.
    pub fn flush(&mut self) -> Result<(), Failed>
        ensures bytes { Keeps (⟦<StdSink<W> as Sink>⟧.written self.old) (⟦<StdSink<W> as Sink>⟧.written self.new) }
        ensures empty { OnOk result (buffered self.new ≡ []) }
        ensures cause { HasCause (sink_faults self.old) (sink_faults self.new) result }
        ensures stopped { 0 < sink_faults self.old → IsErr result × (sink_writer self.new ≡ sink_writer self.old) }
    {
        if self.faults != 0 {
            return Err(fault(&mut self.faults));
        }
        match self.writer.flush() {
            Ok(()) => Ok(()),
            Err(_) => Err(fault(&mut self.faults)),
        }
    }
}

impl<W: Write + Drop> Sink for StdSink<W> {
    ghost written = { λ s. ⟦<BufWriter<FailStop<W>> as Write>⟧.contents s.writer };

    ghost fault_count = { sink_faults };

    /// As at `Sink`. After a fault it fails, and the writer is not called.
    fn write(&mut self, bytes: &[u8]) -> Result<usize, Failed>
        ensures bound { WritesAtMost result bytes.now }
        ensures bytes { WriteAppends (⟦<BufWriter<FailStop<W>> as Write>⟧.contents self.old.writer)
            (⟦<BufWriter<FailStop<W>> as Write>⟧.contents self.new.writer) result bytes.now }
        ensures progress { IfOk result (λ count. 0 < length bytes.now → 0 < count) }
        ensures cause { HasCause (sink_faults self.old) (sink_faults self.new) result }
        ensures stopped { 0 < sink_faults self.old → IsErr result × (sink_writer self.new ≡ sink_writer self.old) }
    {
        if self.faults != 0 {
            return Err(fault(&mut self.faults));
        }
        match self.writer.write(bytes) {
            Ok(0) if !bytes.is_empty() => Err(fault(&mut self.faults)),
            Ok(count) => Ok(count),
            Err(_) => Err(fault(&mut self.faults)),
        }
    }

    fn faults(&self) -> u64 {
        self.faults
    }
}
