//! Why a script is refused, and the line that tells it.

ghost use Rattle.std.specs.Prelude.{◌≡◌, ◌+◌, ◌≤◌, [], ◌∷◌, ◌++◌, length, codes, decimal};
ghost use Rattle.arrayvec.specs.ArrayVec.{array_vec_len};
ghost use Rattle.xs_script.specs.RefusalText.{limit_word, layout_word, kind_text, refusal_text};

use arrayvec::ArrayVec;
use itoa::Buffer;
use xs_base::LayoutError;

/// The limit that a number of a script is out of.
#[derive(Clone, Copy, PartialEq, Eq)]
pub enum LimitName {
    /// Processors: 1 to 16.
    Cpus,
    /// Local events of a turn: 1 to 32.
    Quantum,
    /// Large save areas: 0 to 64.
    Large,
    /// Entries of the schedule: processors of the script, and 4,096 in all.
    Sched,
    /// Blocks: 1 to 64.
    Blocks,
    /// Bytes that a line reads or writes of the memory of a signal frame: 1 to 64, within its 16,388.
    Frame,
    /// Bytes that a line reads or writes of the buffer for register sets: 1 to 64, within its 16,384.
    Buffer,
    /// Bytes that a register set is set from: at most 16,384.
    Count,
    /// Signals: 1 to 31 without 9 and 19.
    Signal,
}

/// What is wrong with a line of a script. The kinds and their order are this project's own.
#[derive(Clone, Copy, PartialEq, Eq)]
pub enum Kind {
    /// The line isn't spelled by the grammar, or doesn't stand where the grammar allows it, or its register can't be
    /// set to its bytes. Where the text ends too early it is the line after the last one.
    BadLine,
    /// A number is out of its limit.
    Limit(LimitName),
    /// A row fails a test of the machine's table, or the table does.
    Layout(LayoutError),
    /// A block has the name of an earlier one, or a child is forked that an earlier line forks.
    Repeated,
    /// A register isn't one of the machine, the name after `fork` isn't that of a child block, the one after `kill` isn't
    /// that of a block with a handler, or the one after `wait`, `getregs`, `setregs` or `cont` isn't that of a child that an
    /// earlier line of the same body forks.
    UnknownName,
    /// A command that reaches another block stands in a handler.
    OuterInHandler,
    /// A child is reached for which no line of the same body waits before, or that one let go on since.
    NotAwaited,
    /// The bound on the events of a run is this one, and exceeds 1,048,576. The line is 0.
    TooMuch(u64),
}

/// Why no script was read.
#[derive(Clone, Copy, PartialEq, Eq)]
pub enum ScriptError {
    /// The text is no script: the line that is refused first, and what is wrong with it.
    Refused {
        /// The line, from 1, and 0 where it is the script as a whole.
        line: u32,
        /// What is wrong with it.
        kind: Kind,
    },
    /// There was no memory for the script.
    Memory,
}

/// The line that tells a refusal, with its line feed.
pub type RefusalLine = ArrayVec<u8, 64>;

/// Replaces `out` by the line that tells that line `line` of a script is refused.
pub fn write_refusal(line: u32, kind: Kind, out: &mut RefusalLine)
    ensures { out.new.items ≡ refusal_text line kind }
{
    out.clear();
    put(out, b"refused ");
    let mut buffer = Buffer::new();
    put(out, buffer.format(line).as_bytes());
    put_kind(out, kind);
    put(out, b"\n");
}

/// Appends a space and the words of the kind.
fn put_kind(out: &mut RefusalLine, kind: Kind)
    requires { array_vec_len out.old ≤ 18 }
    ensures items { out.new.items ≡ out.old.items ++ 32 ∷ kind_text kind }
    ensures len { array_vec_len out.new ≤ array_vec_len out.old + 30 }
{
    match kind {
        Kind::BadLine => put(out, b" bad-line"),
        Kind::Limit(name) => {
            put(out, b" limit ");
            put(out, limit_word(name));
        }
        Kind::Layout(error) => {
            put(out, b" layout ");
            put(out, layout_word(error));
        }
        Kind::Repeated => put(out, b" repeated"),
        Kind::UnknownName => put(out, b" unknown-name"),
        Kind::OuterInHandler => put(out, b" outer-in-handler"),
        Kind::NotAwaited => put(out, b" not-awaited"),
        Kind::TooMuch(events) => {
            put(out, b" too-much ");
            let mut buffer = Buffer::new();
            put(out, buffer.format(events).as_bytes());
        }
    }
}

fn limit_word(name: LimitName) -> &'static [u8]
    ensures word { result.now ≡ limit_word name }
    ensures len { length result.now ≤ 7 }
{
    match name {
        LimitName::Cpus => b"cpus",
        LimitName::Quantum => b"quantum",
        LimitName::Large => b"large",
        LimitName::Sched => b"sched",
        LimitName::Blocks => b"blocks",
        LimitName::Frame => b"frame",
        LimitName::Buffer => b"buffer",
        LimitName::Count => b"count",
        LimitName::Signal => b"signal",
    }
}

fn layout_word(error: LayoutError) -> &'static [u8]
    ensures word { result.now ≡ layout_word error }
    ensures len { length result.now ≤ 17 }
{
    match error {
        LayoutError::UnknownComponent => b"unknown-component",
        LayoutError::Repeated => b"repeated",
        LayoutError::SizeZero => b"size-zero",
        LayoutError::SizeWrong => b"size-wrong",
        LayoutError::FlagsWrong => b"flags-wrong",
        LayoutError::TooLarge => b"too-large",
        LayoutError::Overlap => b"overlap",
        LayoutError::LegacyMissing => b"legacy-missing",
        LayoutError::TileAlone => b"tile-alone",
    }
}

/// Appends the bytes.
fn put(out: &mut RefusalLine, bytes: &[u8])
    requires { array_vec_len out.old + length bytes.now ≤ 64 }
    ensures items { out.new.items ≡ out.old.items ++ bytes.now }
    ensures len { array_vec_len out.new ≡ array_vec_len out.old + length bytes.now }
{
    let _ = out.try_extend_from_slice(bytes);
}
