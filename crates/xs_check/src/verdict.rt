//! The line of a verdict.

ghost use Rattle.std.specs.Prelude.{◌≡◌, ◌+◌, ◌≤◌, ◌++◌, ◌∷◌, [], decimal, length};
ghost use Rattle.arrayvec.specs.ArrayVec.{array_vec_len};
ghost use Rattle.xs_check.specs.Verdict.{illegal_text, legal_text};

use arrayvec::ArrayVec;
use itoa::Buffer;

/// The line of a verdict, with its line feed.
pub type VerdictLine = ArrayVec<u8, 32>;

/// `legal N`: the history is whole and has so many lines.
pub fn legal_line(lines: u32) -> VerdictLine
    ensures { result.items ≡ legal_text lines }
{
    line_of(b"legal ", lines)
}

/// `illegal N`: this line shows that the text isn't that of a whole history.
pub fn illegal_line(line: u32) -> VerdictLine
    ensures { result.items ≡ illegal_text line }
{
    line_of(b"illegal ", line)
}

/// A word, a number and a line feed.
fn line_of(word: &[u8], number: u32) -> VerdictLine
    requires { length word.now ≤ 8 }
    ensures { result.items ≡ (word.now ++ decimal number) ++ 10 ∷ [] }
{
    let mut line = VerdictLine::new();
    let mut buffer = Buffer::new();
    put(&mut line, word);
    put(&mut line, buffer.format(number).as_bytes());
    put(&mut line, b"\n");
    line
}

/// Appends the bytes.
fn put(line: &mut VerdictLine, bytes: &[u8])
    requires { array_vec_len line.old + length bytes.now ≤ 32 }
    ensures items { line.new.items ≡ line.old.items ++ bytes.now }
    ensures len { array_vec_len line.new ≡ array_vec_len line.old + length bytes.now }
{
    let _ = line.try_extend_from_slice(bytes);
}
