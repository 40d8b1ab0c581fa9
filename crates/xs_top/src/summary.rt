//! The line that tells how many events of each kind a history has.

ghost use Rattle.std.specs.Prelude.{◌≡◌, ◌+◌, ◌≤◌, ◌++◌, length};
ghost use Rattle.arrayvec.specs.ArrayVec.{array_vec_len};
ghost use Rattle.std.specs.List.{count_by};
ghost use Rattle.xs_model.specs.History.{is_kill};
ghost use Rattle.xs_top.specs.Summary.{counted, is_growth, is_local, is_outer, summary_text};

use arrayvec::ArrayVec;
use itoa::Buffer;
use xs_model::{Event, Script};

/// The line of a summary, with its line feed.
pub type SummaryLine = ArrayVec<u8, 192>;

/// `tasks T events V local L outer O grow G killed Q`: how many blocks the script has, how many events the history, and how many of
/// them are local lines, outer lines, growths and kills.
pub fn summary_line(script: &Script, history: &[Event]) -> SummaryLine
    ensures { result.items ≡ summary_text script.now history.now }
{
    let mut line = SummaryLine::new();
    put_counted(&mut line, b"tasks", script.blocks.len());
    put_counted(&mut line, b" events", history.len());
    put_counted(&mut line, b" local", local_events(history));
    put_counted(&mut line, b" outer", outer_events(history));
    put_counted(&mut line, b" grow", growths(history));
    put_counted(&mut line, b" killed", kills(history));
    put(&mut line, b"\n");
    line
}

/// How many local lines ran.
fn local_events(history: &[Event]) -> usize
    ensures { result ≡ count_by is_local history.now }
{
    history
        .iter()
        .filter(|event| matches!(event, Event::Local { .. }))
        .count()
}

/// How many outer lines ran.
fn outer_events(history: &[Event]) -> usize
    ensures { result ≡ count_by is_outer history.now }
{
    history
        .iter()
        .filter(|event| matches!(event, Event::Outer { .. }))
        .count()
}

/// How many tasks grew.
fn growths(history: &[Event]) -> usize
    ensures { result ≡ count_by is_growth history.now }
{
    history
        .iter()
        .filter(|event| matches!(event, Event::Grow { .. }))
        .count()
}

/// How many tasks were killed.
fn kills(history: &[Event]) -> usize
    ensures { result ≡ count_by is_kill history.now }
{
    history
        .iter()
        .filter(|event| matches!(event, Event::Kill { .. }))
        .count()
}

/// Appends a word of at most seven letters, a space and a number.
#[tactic(auto, unfolding(crate::specs::Summary::counted))]
fn put_counted(line: &mut SummaryLine, word: &[u8], number: usize)
    requires room { array_vec_len line.old + 28 ≤ 192 }
    requires short { length word.now ≤ 7 }
    ensures items { line.new.items ≡ line.old.items ++ counted word.now number }
    ensures len { array_vec_len line.new ≤ array_vec_len line.old + 28 }
{
    let mut buffer = Buffer::new();
    put(line, word);
    put(line, b" ");
    put(line, buffer.format(number).as_bytes());
}

/// Appends the bytes.
fn put(line: &mut SummaryLine, bytes: &[u8])
    requires { array_vec_len line.old + length bytes.now ≤ 192 }
    ensures items { line.new.items ≡ line.old.items ++ bytes.now }
    ensures len { array_vec_len line.new ≡ array_vec_len line.old + length bytes.now }
{
    let _ = line.try_extend_from_slice(bytes);
}
