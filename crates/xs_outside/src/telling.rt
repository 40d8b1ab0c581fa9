//! A text told with a status.

ghost use Rattle.xs_outside.specs.Outside.{output_of};
ghost use Rattle.xs_outside.specs.Statuses.{TellEnds, too_long_text};

use crate::status::Status;
use crate::writing::write_all;
use xs_io::Sink;

/// The line that answers an input that is longer than its limit.
const TOO_LONG: &[u8] = b"refused 0 too-long\n";

/// Writes a text in place of a history, and answers its status, or that of a failed write.
pub fn tell<K: Sink>(sink: &mut K, text: &[u8], status: Status) -> Status
    ensures { TellEnds status text.now (output_of K.Sink sink.old) (output_of K.Sink sink.new) result }
{
    match write_all(sink, text) {
        Ok(()) => status,
        Err(_) => Status::WriteFault,
    }
}

/// Writes the line that answers an input, or a script in it, which is longer than its limit.
pub fn tell_too_long<K: Sink>(sink: &mut K) -> Status
    ensures { TellEnds Status.Refused too_long_text (output_of K.Sink sink.old) (output_of K.Sink sink.new) result }
{
    tell(sink, TOO_LONG, Status::Refused)
}
