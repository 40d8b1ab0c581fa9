//! The two memories of a task.

ghost use Rattle.std.specs.Prelude.{◌≡◌, ◌+◌, ◌≤◌, length, slice_range};
ghost use Rattle.xs_base.specs.Bytes.{splice};
ghost use Rattle.xs_task.specs.Memory.{memory, KeepsOthers};

use crate::task::Task;
use xs_base::{Lane, put};

/// A memory of a task.
#[derive(Clone, Copy, PartialEq, Eq, Debug)]
pub enum Mem {
    /// That of its signal frame.
    Frame,
    /// Its buffer for register sets.
    Buffer,
}

impl Task {
    /// The `len` bytes of a memory from byte `at` on, which lie in it, at most 64.
    pub fn peek(&self, mem: Mem, at: u32, len: u32) -> Lane
        requires inside { at + len ≤ length (memory mem self.now) }
        requires few { len ≤ 64 }
        ensures { result ≡ slice_range (memory mem self.now) at (at + len) }
    {
        let bytes = self.memory(mem);
        let from = at as usize;
        Lane::from_slice(&bytes[from..from + len as usize])
    }

    /// Writes the lane over a memory from byte `at` on, within it. Nothing else changes.
    pub fn poke(&mut self, mem: Mem, at: u32, lane: &Lane)
        requires { at + length lane.now ≤ length (memory mem self.old) }
        ensures written { memory mem self.new ≡ splice at lane.now (memory mem self.old) }
        ensures len { length (memory mem self.new) ≡ length (memory mem self.old) }
        ensures others { KeepsOthers mem self.old self.new }
    {
        let bytes = lane.as_slice();
        match mem {
            Mem::Frame => put(&mut self.frame, at as usize, bytes),
            Mem::Buffer => put(&mut self.buffer, at as usize, bytes),
        }
    }

    /// A memory.
    fn memory(&self, mem: Mem) -> &[u8]
        ensures { result.now ≡ memory mem self.now }
    {
        match mem {
            Mem::Frame => &self.frame,
            Mem::Buffer => &self.buffer,
        }
    }
}
