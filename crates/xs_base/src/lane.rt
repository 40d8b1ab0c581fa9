//! The value of one register, or a piece of a task's memory.

ghost use Rattle.std.specs.Prelude.{◌≡◌, ◌≤◌, length};

use arrayvec::ArrayVec;
use std::marker::Model;

/// At most 64 bytes, in the order of their addresses. Contracts see the list of the bytes.
#[derive(Drop)]
pub struct Lane {
    bytes: ArrayVec<u8, 64>,
}

impl Model for Lane {
    ghost use Rattle.std.specs.Prelude.{List, ℕ};

    ghost Value = { List ℕ };

    ghost view = { λ l. l.bytes.items };
}

impl Lane {
    /// These bytes as a lane.
    pub fn from_slice(bytes: &[u8]) -> Lane
        requires { length bytes.now ≤ 64 }
        ensures { result ≡ bytes.now }
    {
        let mut lane = ArrayVec::new();
        let _ = lane.try_extend_from_slice(bytes);
        Lane { bytes: lane }
    }

    /// The bytes, at most 64.
    pub fn as_slice(&self) -> &[u8]
        ensures bytes { result.now ≡ self.now }
        ensures len { length result.now ≤ 64 }
    {
        self.bytes.as_slice()
    }
}
