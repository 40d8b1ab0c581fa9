//! What a sink over std still holds back when a call ends.

ghost use Rattle.std.specs.Prelude.{◌≡◌, [], ◌⊎◌};
ghost use Rattle.xs_io.specs.Causes.{Rose};
ghost use Rattle.xs_io.specs.Standard.{buffered, sink_faults};

use std::io::Write;
use xs_io::StdSink;
use xs_outside::Status;

/// Hands on what the sink holds back after a call with this status, since a sink that is dropped loses its error. Where that
/// fails the output was not all taken, and the status is that of a failed write. After a failed write nothing more is handed on.
/// Where reading failed or there was no memory, nothing was written, and the status stays.
pub fn hand_on<W: Write + Drop>(sink: &mut StdSink<W>, status: Status) -> Status
    // Another status than that of a failed write is the call's.
    ensures same { (result ≡ Status.WriteFault → ⊥) → result ≡ status }
    // That status is the call's, or the writer failed here.
    ensures fault { result ≡ Status.WriteFault → (status ≡ Status.WriteFault) ⊎ Rose (sink_faults sink.old) (sink_faults sink.new) }
    // Where the call wrote all that it was to write, the sink holds nothing back.
    ensures handed { (result ≡ Status.Done) ⊎ (result ≡ Status.Killed) ⊎ (result ≡ Status.Refused) ⊎ (result ≡ Status.Illegal) ⊎ (result ≡ Status.Usage) → buffered sink.new ≡ [] }
    // The status of a call that wrote nothing stays.
    ensures kept { (status ≡ Status.ReadFault) ⊎ (status ≡ Status.NoMemory) → result ≡ status }
{
    if status == Status::ReadFault || status == Status::NoMemory {
        return status;
    }
    match sink.flush() {
        Ok(()) => status,
        Err(_) => Status::WriteFault,
    }
}
