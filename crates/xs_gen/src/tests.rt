//! What no clause says: the script of a number as another program makes it, that it is read, and that it is written line by line.

use crate::{gen_call, generate};
use std::test::Fail;
use xs_io::MemSink;
use xs_outside::Status;
use xs_script::read_script;

/// The first lines of the script of 7.
const START: &str = "\
xstate 1
machine amx
cpus 8
quantum 8
large 64
task t0
perm 18
set xmm14 f4e84544236752fbb56b8f31a23a10e4
get xmm14
yield
set xmm8 14f5f55ca037cdcc11c64c9a3b2949c1
get xmm8
ksec bb
";

// The lines, and how many bytes and lines there are, come from a program that shares nothing with this one.
#[test]
fn script_of_seven(rt: HostRuntime) -> Result<(), Fail> {
    let bytes = generate(rt.alloc(), 7)?;
    assert_eq!(rt; bytes.len(), 433_621);
    let text = std::str::from_utf8(&bytes)?;
    assert_eq!(rt; text.lines().count(), 20_293);
    assert!(rt; text.starts_with(START));
    Ok(())
}

#[test]
fn script_of_seven_is_read(rt: HostRuntime) -> Result<(), Fail> {
    let bytes = generate(rt.alloc(), 7)?;
    assert_eq!(rt; bytes.len(), 433_621);
    assert!(rt; read_script(rt.alloc(), &bytes).is_ok());
    Ok(())
}

#[test]
fn script_of_seven_is_written(rt: HostRuntime) -> Result<(), Fail> {
    let alloc = rt.alloc();
    let mut sink = MemSink::open(alloc, 433_621, Vec::new(alloc))?;
    assert!(rt; gen_call(alloc, 7, &mut sink) == Status::Done);
    assert_eq!(rt; sink.bytes().len(), 433_621);
    Ok(())
}

// A sink that fails at its third call was given the first two lines.
#[test]
fn third_write_fails(rt: HostRuntime) -> Result<(), Fail> {
    let alloc = rt.alloc();
    let mut sink = MemSink::open(alloc, 433_621, vec![in alloc; 3]?)?;
    assert!(rt; gen_call(alloc, 7, &mut sink) == Status::WriteFault);
    assert_eq!(rt; sink.bytes(), b"xstate 1\nmachine amx\n".as_slice());
    Ok(())
}
