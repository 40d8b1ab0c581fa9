//! The text of a history, handed to a sink.

ghost use Rattle.std.specs.Prelude.{OnOk, OnErr};
ghost use Rattle.std.specs.Io.KnownBytes.{Appends};
ghost use Rattle.xs_io.specs.Causes.{HasCause};
ghost use Rattle.xs_text.specs.Text.{AreTasksKnown, history_text};
ghost use Rattle.xs_outside.specs.Outside.{AppendsFront};

use xs_io::{Failed, Sink};
use xs_model::{Event, Script};
use xs_outside::write_all;
use xs_text::{Line, write_event};

/// Writes the line of each event, in order, each handed to the sink whole. Where a write fails, the sink has taken a
/// front of the history's text.
pub fn write_history<K: Sink>(
    script: &Script,
    history: &[Event],
    sink: &mut K,
) -> Result<(), Failed>
    requires { AreTasksKnown script.now history.now }
    ensures ok { OnOk result (Appends (K.written sink.old) (K.written sink.new) (history_text script.now history.now)) }
    ensures err { OnErr result (AppendsFront (K.written sink.old) (K.written sink.new) (history_text script.now history.now)) }
    ensures cause { HasCause (K.fault_count sink.old) (K.fault_count sink.new) result }
{
    let mut line = Line::new();
    for event in history {
        write_event(script, event, &mut line);
        write_all(sink, line.as_slice())?;
    }
    Ok(())
}
