//! An input as a whole, up to a limit.

ghost use Rattle.std.specs.Prelude.{◌≡◌, ◌+◌, ◌^◌, ◌<◌, ◌≤◌, ℕ, List, length, vec_len, IfOk, OnOk, OnErr, IsErrOf};
ghost use Rattle.std.specs.Io.KnownBytes.{Consumes, IsAtEnd};
ghost use Rattle.xs_io.specs.Causes.{Rose};

use std::alloc::Global;
use xs_io::Source;

/// Why an input was not read.
#[derive(Clone, Copy, PartialEq, Eq)]
pub enum ReadError {
    /// The source failed.
    Fault,
    /// There was no memory for the bytes.
    Memory,
}

/// The most bytes of a script.
pub const SCRIPT_LIMIT: usize = 1048576;

/// The most bytes that one read of the source is asked for.
const CHUNK: usize = 16384;

/// Reads the input to its end, and of a longer one `limit + 1` bytes: no more is ever taken. So more than `limit` bytes
/// say that the input is longer than the limit, and fewer are the whole of it. A fault of the source ends the reading,
/// as does want of memory; the bytes taken by then are lost.
pub fn read_up_to<S: Source>(
    alloc: Global,
    limit: usize,
    source: &mut S,
) -> Result<Vec<u8>, ReadError>
    requires { limit < 2 ^ 32 }
    ensures bytes { IfOk result (λ input. Consumes (S.left source.old) (S.left source.new) input.items) }
    ensures bound { IfOk result (λ input. vec_len input ≤ limit + 1) }
    ensures end { IfOk result (λ input. vec_len input ≤ limit → IsAtEnd (S.left source.new)) }
    ensures lost { OnErr result ((taken : List ℕ) × (length taken ≤ limit + 1) ×
        Consumes (S.left source.old) (S.left source.new) taken) }
    ensures later { S.fault_count source.old ≤ S.fault_count source.new }
    ensures kept { OnOk result (S.fault_count source.new ≡ S.fault_count source.old) }
    ensures fault { IsErrOf result ReadError.Fault → Rose (S.fault_count source.old) (S.fault_count source.new) }
    ensures memory { IsErrOf result ReadError.Memory → S.fault_count source.new ≡ S.fault_count source.old }
{
    let mut chunk = [0u8; CHUNK];
    let mut input = Vec::new(alloc);
    while input.len() <= limit {
        let room = CHUNK.min(limit + 1 - input.len());
        let piece = &mut chunk[..room];
        match source.read(piece) {
            Ok(0) => return Ok(input),
            Ok(count) => match input.extend_from_slice(&piece[..count]) {
                Ok(()) => {}
                Err(_) => return Err(ReadError::Memory),
            },
            Err(_) => return Err(ReadError::Fault),
        }
    }
    Ok(input)
}
