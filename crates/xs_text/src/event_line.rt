//! The line of one event.

ghost use Rattle.std.specs.Prelude.{◌≡◌, ◌+◌, ◌<◌, ◌≤◌, [], ◌∷◌, ◌++◌, length, decimal};
ghost use Rattle.xs_text.specs.Text.{how_word, signal_word, reply_word, cause_word, name_of, task_of, event_line};

use crate::digits::{put_digits, put_hex};
use crate::line::Line;
use xs_base::{How, Signo};
use xs_model::{Event, Reply, Script, Why};

/// Replaces `out` by the event's line with its line feed.
pub fn write_event(script: &Script, event: &Event, out: &mut Line)
    requires { task_of event.now < length script.now.blocks }
    ensures { out.new ≡ event_line script.now event.now ++ 10 ∷ [] }
{
    match event {
        Event::Start {
            task,
            cpu,
            how,
            signal,
        } => {
            begin(out, b"start ", name_of(script, *task));
            put_number(out, *cpu);
            put_word(out, how_word(*how));
            put_signal(out, *signal);
        }
        Event::Local { task, line, reply } => {
            begin(out, b"local ", name_of(script, *task));
            put_number(out, *line);
            put_reply(out, reply);
        }
        Event::Outer { task, line, reply } => {
            begin(out, b"outer ", name_of(script, *task));
            put_number(out, *line);
            put_reply(out, reply);
        }
        Event::Grow { task } => begin(out, b"grow ", name_of(script, *task)),
        Event::Kill { task, signo, why } => {
            begin(out, b"kill ", name_of(script, *task));
            put_number(out, u32::from(signo.number));
            put_word(out, cause_word(*why));
        }
        Event::End { task } => begin(out, b"end ", name_of(script, *task)),
    }
    out.put(b"\n");
}

/// The name of the task that is the block of this number.
pub(crate) fn name_of(script: &Script, task: u32) -> &[u8]
    requires { task < length script.now.blocks }
    ensures name { result.now ≡ name_of script.now task }
    ensures len { length result.now ≤ 16 }
{
    script.blocks.as_slice()[task as usize].name.as_slice()
}

/// A space and the word of a restore.
fn how_word(how: How) -> &'static [u8]
    ensures word { result.now ≡ 32 ∷ how_word how }
    ensures len { length result.now ≤ 5 }
{
    match how {
        How::Load => b" load",
        How::Skip => b" skip",
        How::Kern => b" kern",
    }
}

/// A space and the word of a cause.
fn cause_word(why: Why) -> &'static [u8]
    ensures word { result.now ≡ 32 ∷ cause_word why }
    ensures len { length result.now ≤ 16 }
{
    match why {
        Why::Permission => b" permission",
        Why::Area => b" area",
        Why::FrameFeatures => b" frame-features",
        Why::FrameCompacted => b" frame-compacted",
        Why::FrameReserved => b" frame-reserved",
        Why::FrameMxcsr => b" frame-mxcsr",
    }
}

/// Appends a word, in pieces of a length that the compiler knows where it has at most 23 bytes.
#[inline(always)]
fn put_word(out: &mut Line, word: &[u8])
    requires { length out.old + length word.now ≤ 192 }
    ensures { out.new ≡ out.old ++ word.now }
{
    let rest = put_piece(out, word, 8);
    let rest = put_piece(out, rest, 8);
    let rest = put_piece(out, rest, 4);
    let rest = put_piece(out, rest, 2);
    let rest = put_piece(out, rest, 1);
    if !rest.is_empty() {
        out.put(rest);
    }
}

/// Appends the first `len` bytes of the word, where it has as many, and answers the rest.
#[inline(always)]
fn put_piece<'a>(out: &mut Line, word: &'a [u8], len: usize) -> &'a [u8]
    requires { length out.old + length word.now ≤ 192 }
    ensures joined { out.new ++ result.now ≡ out.old ++ word.now }
    ensures len { length out.new + length result.now ≡ length out.old + length word.now }
{
    if word.len() < len {
        return word;
    }
    out.put(&word[..len]);
    &word[len..]
}

/// Replaces `out` by the first word of a line with its space, and the task's name.
#[inline(always)]
fn begin(out: &mut Line, word: &[u8], name: &[u8])
    requires { length word.now + length name.now ≤ 192 }
    ensures { out.new ≡ word.now ++ name.now }
{
    out.clear();
    out.put(word);
    put_word(out, name);
}

/// Appends a space and the number, at most ten digits.
fn put_number(out: &mut Line, n: u32)
    requires { length out.old + 11 ≤ 192 }
    ensures items { out.new ≡ out.old ++ 32 ∷ decimal n }
    ensures len { length out.new ≤ length out.old + 11 }
{
    out.put(b" ");
    put_digits(out, n);
}

/// Appends a space and the signal's number, or `-` for none.
fn put_signal(out: &mut Line, signal: Option<Signo>)
    requires { length out.old + 11 ≤ 192 }
    ensures items { out.new ≡ out.old ++ 32 ∷ signal_word signal }
    ensures len { length out.new ≤ length out.old + 11 }
{
    match signal {
        None => out.put(b" -"),
        Some(signo) => put_number(out, u32::from(signo.number)),
    }
}

/// Appends a space and the reply's word, at most 129 bytes.
fn put_reply(out: &mut Line, reply: &Reply)
    requires { length out.old + 130 ≤ 192 }
    ensures items { out.new ≡ out.old ++ 32 ∷ reply_word reply.now }
    ensures len { length out.new ≤ length out.old + 130 }
{
    match reply {
        Reply::Done => out.put(b" -"),
        Reply::Bytes(lane) => {
            out.put(b" =");
            put_hex(out, lane.as_slice());
        }
        Reply::Count(n) => {
            out.put(b" +");
            put_digits(out, *n);
        }
        Reply::Error(n) => {
            out.put(b" !");
            put_digits(out, *n);
        }
        Reply::Blocked => out.put(b" blocked"),
        Reply::Stopped => out.put(b" stopped"),
        Reply::Ended => out.put(b" ended"),
        Reply::Held => out.put(b" held"),
        Reply::Full => out.put(b" full"),
        Reply::Legacy => out.put(b" legacy"),
    }
}
