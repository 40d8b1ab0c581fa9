//! One line of a history's text.

ghost use Rattle.std.specs.Prelude.{◌≡◌, ◌+◌, ◌≤◌, [], ◌++◌, length};

use std::marker::Model;

/// How many bytes a line has room for.
const ROOM: usize = 192;

/// At most 192 bytes. Contracts see the list of the bytes.
#[derive(Drop)]
pub struct Line {
    bytes: [u8; ROOM],
    len: usize,
}

impl Model for Line {
    ghost use Rattle.std.specs.Prelude.{List, ℕ, ◌≤◌, take};

    ghost Value = { List ℕ };

    ghost view = { λ l. take l.len l.bytes };

    ghost invariant = { λ l. l.len ≤ 192 };
}

impl Line {
    /// A line of no bytes.
    pub fn new() -> Line
        ensures { result ≡ [] }
    {
        Line {
            bytes: [0; ROOM],
            len: 0,
        }
    }

    /// The bytes, at most 192.
    #[inline(always)]
    pub fn as_slice(&self) -> &[u8]
        ensures value { result.now ≡ self.now }
        ensures len { length result.now ≤ 192 }
    {
        &self.bytes[..self.len]
    }

    /// Takes all bytes away.
    #[inline(always)]
    pub(crate) fn clear(&mut self)
        ensures { self.new ≡ [] }
    {
        self.len = 0;
    }

    /// Appends the bytes. Where their number is known to the compiler, that is a few moves.
    #[inline(always)]
    pub(crate) fn put(&mut self, bytes: &[u8])
        requires { length self.old + length bytes.now ≤ 192 }
        ensures { self.new ≡ self.old ++ bytes.now }
    {
        let len = self.len;
        let end = len + bytes.len();
        self.bytes[len..end].copy_from_slice(bytes);
        self.len = end;
    }
}
