//! One run of each source and sink, with a call that fails in mid-stream.

use crate::{Failed, MemSink, MemSource, Sink, Source, StdSink, StdSource};
use std::io;
use std::io::Write;
use std::process::Abort;
use std::test::Fail;

/// Reads once through the trait: the answer, the bytes, and the faults so far.
fn reads<S: Source>(rt: &impl Abort, source: &mut S, want: (Result<usize, Failed>, [u8; 2], u64)) {
    let mut into = [0u8; 2];
    let result = source.read(&mut into);
    assert_eq!(rt; (result, into, source.faults()), want);
}

/// Writes once through the trait: the answer, and the faults so far.
fn writes<K: Sink>(
    rt: &impl Abort,
    sink: &mut K,
    bytes: &[u8],
    want: (Result<usize, Failed>, u64),
) {
    let result = sink.write(bytes);
    assert_eq!(rt; (result, sink.faults()), want);
}

/// Flushes: the answer, and the faults so far.
fn flushes<W: Write + Drop>(
    rt: &impl Abort,
    sink: &mut StdSink<W>,
    want: (Result<(), Failed>, u64),
) {
    let result = sink.flush();
    assert_eq!(rt; (result, sink.faults()), want);
}

/// A writer that takes nothing.
#[derive(Drop)]
struct Full;

impl Write for Full {
    fn write(&mut self, _buf: &[u8]) -> io::Result<usize> {
        Ok(0)
    }

    fn flush(&mut self) -> io::Result<()> {
        Ok(())
    }
}

/// A writer whose call of this number, counted down to 0, fails. The others append to the bytes.
#[derive(Drop)]
struct FailsOnce<'a> {
    bytes: &'a mut Vec<u8>,
    left: u32,
}

impl Write for FailsOnce<'_> {
    fn write(&mut self, buf: &[u8]) -> io::Result<usize> {
        let left = self.left;
        self.left = left.wrapping_sub(1);
        if left == 0 {
            return Err(io::Error::from(io::ErrorKind::Other));
        }
        self.bytes.write(buf)
    }

    fn flush(&mut self) -> io::Result<()> {
        Ok(())
    }
}

/// A reader whose every read fails.
#[derive(Drop)]
struct Broken;

impl io::Read for Broken {
    fn read(&mut self, _buf: &mut [u8]) -> io::Result<usize> {
        Err(io::Error::from(io::ErrorKind::BrokenPipe))
    }
}

#[test]
fn memory_source(rt: HostRuntime) -> Result<(), Fail> {
    let bytes = vec![in rt.alloc(); b'a', b'b', b'c']?;
    let mut source = MemSource::new(bytes, vec![in rt.alloc(); 2]?);
    reads(&rt, &mut source, (Ok(2), *b"ab", 0));
    reads(&rt, &mut source, (Err(Failed), [0, 0], 1));
    reads(&rt, &mut source, (Ok(1), *b"c\0", 1));
    reads(&rt, &mut source, (Ok(0), [0, 0], 1));
    Ok(())
}

#[test]
fn memory_sink(rt: HostRuntime) -> Result<(), Fail> {
    let mut sink = MemSink::open(rt.alloc(), 4, vec![in rt.alloc(); 2]?)?;
    writes(&rt, &mut sink, b"abc", (Ok(3), 0));
    writes(&rt, &mut sink, b"x", (Err(Failed), 1));
    writes(&rt, &mut sink, b"de", (Ok(1), 1));
    writes(&rt, &mut sink, b"e", (Err(Failed), 2));
    writes(&rt, &mut sink, b"", (Ok(0), 2));
    assert!(rt; sink.bytes() == b"abcd".as_slice());
    Ok(())
}

#[test]
fn standard_source(rt: HostRuntime) {
    let mut source = StdSource::new(b"abc".as_slice());
    reads(&rt, &mut source, (Ok(2), *b"ab", 0));
    reads(&rt, &mut source, (Ok(1), *b"c\0", 0));
    reads(&rt, &mut StdSource::new(Broken), (Err(Failed), [0, 0], 1));
}

#[test]
fn standard_sink_onto_full(rt: HostRuntime) -> Result<(), Fail> {
    let mut sink = StdSink::open(rt.alloc(), Full)?;
    writes(&rt, &mut sink, b"", (Ok(0), 0));
    writes(&rt, &mut sink, b"abc", (Ok(3), 0));
    flushes(&rt, &mut sink, (Err(Failed), 1));
    Ok(())
}

/// The first call of the writer takes bytes, the second fails, and there is no third, not even where the sink is dropped.
#[test]
fn standard_sink_stops(rt: HostRuntime) -> Result<(), Fail> {
    let mut bytes = Vec::new(rt.alloc());
    let mut sink = StdSink::open(
        rt.alloc(),
        FailsOnce {
            bytes: &mut bytes,
            left: 1,
        },
    )?;
    writes(&rt, &mut sink, b"abc", (Ok(3), 0));
    flushes(&rt, &mut sink, (Ok(()), 0));
    writes(&rt, &mut sink, b"def", (Ok(3), 0));
    flushes(&rt, &mut sink, (Err(Failed), 1));
    writes(&rt, &mut sink, b"ghi", (Err(Failed), 2));
    flushes(&rt, &mut sink, (Err(Failed), 3));
    drop(sink);
    assert!(rt; bytes.as_slice() == b"abc".as_slice());
    Ok(())
}
