//! The words of a script that its author chooses.

ghost use Rattle.std.specs.Prelude.{◌≡◌, ◌≤◌, length};

use arrayvec::ArrayVec;
use std::marker::Model;

/// The name of a block or of a register: at most 16 bytes, in the value itself. Contracts see the list of the bytes.
#[derive(Drop)]
pub struct Name {
    bytes: ArrayVec<u8, 16>,
}

impl Model for Name {
    ghost use Rattle.std.specs.Prelude.{List, ℕ};

    ghost Value = { List ℕ };

    ghost view = { λ n. n.bytes.items };
}

impl Name {
    /// These bytes as a name.
    pub fn from_slice(bytes: &[u8]) -> Name
        requires { length bytes.now ≤ 16 }
        ensures { result ≡ bytes.now }
    {
        let mut name = ArrayVec::new();
        let _ = name.try_extend_from_slice(bytes);
        Name { bytes: name }
    }

    /// The bytes, at most 16.
    pub fn as_slice(&self) -> &[u8]
        ensures bytes { result.now ≡ self.now }
        ensures len { length result.now ≤ 16 }
    {
        self.bytes.as_slice()
    }
}
