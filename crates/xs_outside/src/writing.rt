//! A text written as a whole.

ghost use Rattle.std.specs.Prelude.{◌≡◌, ◌++◌, MatchOption, OnOk, OnErr};
ghost use Rattle.std.specs.Io.KnownBytes.{Appends};
ghost use Rattle.xs_io.specs.Causes.{HasCause};
ghost use Rattle.xs_outside.specs.Outside.{AppendsFront, IsLine, LacksLineFeed};

use xs_io::{Failed, Sink};

/// Hands the text to the sink, and its rest again where fewer bytes were taken. Where a write fails, the sink has taken
/// a front of the text, and not all of it.
pub fn write_all<K: Sink>(sink: &mut K, text: &[u8]) -> Result<(), Failed>
    ensures ok { OnOk result (Appends (K.written sink.old) (K.written sink.new) text.now) }
    ensures err { OnErr result (AppendsFront (K.written sink.old) (K.written sink.new) text.now) }
    ensures cause { HasCause (K.fault_count sink.old) (K.fault_count sink.new) result }
{
    let mut rest = text;
    while !rest.is_empty() {
        let count = sink.write(rest)?;
        rest = &rest[count..];
    }
    Ok(())
}

/// Hands the text to the sink line by line: each line whole, with its line feed, and what comes after the last line feed as it is.
/// Where a write fails, the sink has taken a front of the text, and not all of it.
pub fn write_lines<K: Sink>(sink: &mut K, text: &[u8]) -> Result<(), Failed>
    ensures ok { OnOk result (Appends (K.written sink.old) (K.written sink.new) text.now) }
    ensures err { OnErr result (AppendsFront (K.written sink.old) (K.written sink.new) text.now) }
    ensures cause { HasCause (K.fault_count sink.old) (K.fault_count sink.new) result }
{
    let mut rest = text;
    while let Some((line, more)) = first_line(rest) {
        write_all(sink, line)?;
        rest = more;
    }
    write_all(sink, rest)
}

/// The first line of a text with its line feed, and what comes after it; None where the text has no line feed.
fn first_line(text: &[u8]) -> Option<(&[u8], &[u8])>
    ensures { MatchOption result (LacksLineFeed text.now) (λ x. IsLine x.0.now × (text.now ≡ x.0.now ++ x.1.now)) }
{
    'bytes: for i in 0..text.len() {
        if text[i] == b'\n' {
            return Some(text.split_at(i + 1));
        }
    }
    None
}
