//! A source and a sink in memory, which fail at the calls that they are told.

ghost use Rattle.std.specs.Prelude.{◌≡◌, ◌↔◌, ◌+◌, ◌-◌, ◌<◌, ◌≤◌, ◌++◌, [], Some, length, min, vec_len, vec_capacity, take, drop, IfOk, OnErr, IsOk, IsErr, IsTrue};
ghost use Rattle.std.specs.Io.{ReadsAtMost, WritesAtMost};
ghost use Rattle.std.specs.Io.KnownBytes.{ReadConsumes, WriteAppends};
ghost use Rattle.xs_io.specs.Causes.{HasCause, one_more};
ghost use Rattle.xs_io.specs.Memory.{Supply, Store, is_failing, is_read_failing, is_write_failing};

use crate::failed::fault;
use crate::{Failed, Sink, Source};
use std::alloc::{AllocError, Global};
use std::marker::Model;

/// Counts a call, and says whether it is one of those that fail.
fn begin(calls: &mut u64, fail: &[u64]) -> bool
    ensures fails { result ≡ is_failing fail.now calls.new }
    ensures count { calls.new ≡ one_more calls.old }
{
    *calls = calls.saturating_add(1);
    fail.contains(calls)
}

/// Copies as many bytes as both have, and answers how many.
fn copy_front(from: &[u8], to: &mut [u8]) -> usize
    ensures count { result ≡ min (length from.now) (length to.old) }
    ensures bytes { from.now ≡ take result to.new ++ drop result from.now }
{
    let count = from.len().min(to.len());
    to[..count].copy_from_slice(&from[..count]);
    count
}

/// Appends the piece, for which there is room.
fn put(bytes: &mut Vec<u8>, piece: &[u8])
    requires { vec_len bytes.old + length piece.now ≤ vec_capacity bytes.old }
    ensures items { bytes.new.items ≡ bytes.old.items ++ piece.now }
    ensures len { vec_len bytes.new ≡ vec_len bytes.old + length piece.now }
    ensures capacity { vec_capacity bytes.old ≤ vec_capacity bytes.new }
{
    let Ok(()) = bytes.extend_from_slice(piece) else {
        unreachable!()
    };
}

/// A source in memory.
#[derive(Drop)]
pub struct MemSource {
    bytes: Vec<u8>,
    at: usize,
    fail: Vec<u64>,
    calls: u64,
    faults: u64,
}

impl Model for MemSource {
    ghost Value = { Supply };

    ghost view = { λ s. record {
      left = drop s.at s.bytes.items;
      fail = s.fail.items;
      calls = s.calls;
      faults = s.faults;
    } };

    ghost invariant = { λ s. s.at ≤ vec_len s.bytes };
}

impl MemSource {
    /// A source of these bytes. The calls of `read` whose numbers stand in `fail`, counted from 1, fail.
    pub fn new(bytes: Vec<u8>, fail: Vec<u64>) -> MemSource
        ensures { result ≡ record { left = bytes.items; fail = fail.items; calls = 0; faults = 0 } }
    {
        MemSource {
            bytes,
            at: 0,
            fail,
            calls: 0,
            faults: 0,
        }
    }
}

impl Source for MemSource {
    ghost left = { λ s. Some s.left };

    ghost fault_count = { λ s. s.faults };

    /// As at `Source`. The call fails exactly where its number is one of those that fail; any other gives as many
    /// bytes as are left and fit.
    fn read(&mut self, into: &mut [u8]) -> Result<usize, Failed>
        ensures bound { ReadsAtMost result into.new }
        ensures bytes { ReadConsumes (Some self.old.left) (Some self.new.left) result into.new }
        ensures cause { HasCause self.old.faults self.new.faults result }
        ensures fails { IsErr result ↔ IsTrue (is_read_failing self.old) }
        ensures full { IfOk result (λ count. count ≡ min (length self.old.left) (length into.old)) }
        ensures fault { OnErr result (self.new.faults ≡ one_more self.old.faults) }
        ensures calls { self.new.calls ≡ one_more self.old.calls }
        ensures same { self.new.fail ≡ self.old.fail }
    {
        if begin(&mut self.calls, self.fail.as_slice()) {
            return Err(fault(&mut self.faults));
        }
        let count = copy_front(&self.bytes[self.at..], into);
        self.at += count;
        Ok(count)
    }

    fn faults(&self) -> u64 {
        self.faults
    }
}

/// A sink in memory, of a fixed size.
#[derive(Drop)]
pub struct MemSink {
    bytes: Vec<u8>,
    room: usize,
    fail: Vec<u64>,
    calls: u64,
    faults: u64,
}

impl Model for MemSink {
    ghost Value = { Store };

    ghost view = { λ s. record {
      written = s.bytes.items;
      room = s.room;
      fail = s.fail.items;
      calls = s.calls;
      faults = s.faults;
    } };

    ghost invariant = { λ s. (vec_len s.bytes ≤ s.room) × (s.room ≤ vec_capacity s.bytes) };
}

impl MemSink {
    /// A sink with room for `room` bytes, which are taken here. The calls of `write` whose numbers stand in `fail`,
    /// counted from 1, fail.
    pub fn open(alloc: Global, room: usize, fail: Vec<u64>) -> Result<MemSink, AllocError>
        ensures opened { IfOk result (λ s.
            s ≡ record { written = []; room = room; fail = fail.items; calls = 0; faults = 0 }) }
        ensures succeeds { room ≡ 0 → IsOk result }
    {
        Ok(MemSink {
            bytes: Vec::with_capacity(alloc, room)?,
            room,
            fail,
            calls: 0,
            faults: 0,
        })
    }

    /// What was written so far.
    pub fn bytes(&self) -> &[u8]
        ensures { result.now ≡ self.now.written }
    {
        self.bytes.as_slice()
    }
}

impl Sink for MemSink {
    ghost written = { λ s. Some s.written };

    ghost fault_count = { λ s. s.faults };

    /// As at `Sink`. The call fails exactly where its number is one of those that fail, or where there are bytes and
    /// no room for one; any other takes as many of the bytes as there is room for.
    fn write(&mut self, bytes: &[u8]) -> Result<usize, Failed>
        ensures bound { WritesAtMost result bytes.now }
        ensures bytes { WriteAppends (Some self.old.written) (Some self.new.written) result bytes.now }
        ensures progress { IfOk result (λ count. 0 < length bytes.now → 0 < count) }
        ensures cause { HasCause self.old.faults self.new.faults result }
        ensures fails { IsErr result ↔ IsTrue (is_write_failing self.old bytes.now) }
        ensures full { IfOk result (λ count.
            count ≡ min (length bytes.now) (self.old.room - length self.old.written)) }
        ensures fault { OnErr result (self.new.faults ≡ one_more self.old.faults) }
        ensures calls { self.new.calls ≡ one_more self.old.calls }
        ensures same { (self.new.room ≡ self.old.room) × (self.new.fail ≡ self.old.fail) }
    {
        let fails = begin(&mut self.calls, self.fail.as_slice());
        if fails || (self.room <= self.bytes.len() && bytes.len() != 0) {
            return Err(fault(&mut self.faults));
        }
        let count = bytes.len().min(self.room - self.bytes.len());
        put(&mut self.bytes, &bytes[..count]);
        Ok(count)
    }

    fn faults(&self) -> u64 {
        self.faults
    }
}
