//! The areas of one class.

ghost use Rattle.std.specs.Prelude.{◌≡◌, ℕ, ◌^◌, ◌<◌, length, IfOk, IfErr, OnOk, OnErr};
ghost use Rattle.xs_pool.specs.Pool.{one_more_out, one_fewer_out};

use std::alloc::{AllocError, Global};
use std::marker::Model;

/// Every area of the class is out.
#[derive(Clone, Copy, PartialEq, Eq, Debug)]
pub struct Full {
    /// How many areas of the class are out.
    pub out: u32,
    /// How many areas of the class there are.
    pub capacity: u32,
}

/// Areas of `size` bytes each, of which `out` are out. Those that are in stand in the slots from `out` on. Contracts see
/// the size and the stock.
#[derive(Drop)]
pub struct Shelf {
    size: u32,
    slots: Vec<Option<Vec<u8>>>,
    out: u32,
}

impl Model for Shelf {
    ghost use Rattle.std.specs.Prelude.{length};
    ghost use Rattle.xs_pool.specs.Shelf as shelves;

    ghost Value = { shelves.Shelf };

    ghost view = { λ s. record { size = s.size; stock = record { out = s.out; capacity = length s.slots.items } } };

    ghost invariant = { λ s. shelves.IsShelf s.size s.out s.slots.items };
}

impl Shelf {
    /// A shelf with so many areas of `size` bytes. Fails for want of memory alone; no other call takes memory.
    pub fn open(alloc: Global, size: u32, capacity: u32) -> Result<Shelf, AllocError>
        ensures { IfOk result (λ shelf. shelf ≡ record { size = size; stock = record { out = 0; capacity = capacity } }) }
    {
        let mut slots = Vec::with_capacity(alloc, capacity as usize)?;
        'areas: for _ in 0..capacity {
            slots.push(Some(vec![in alloc; 0u8; size as usize]?))?;
        }
        Ok(Shelf {
            size,
            slots,
            out: 0,
        })
    }

    /// An area, whatever its bytes; or `Full` where every area is out, and then nothing changes.
    pub fn take(&mut self) -> Result<Vec<u8>, Full>
        ensures full { OnErr result (self.old.stock.out ≡ self.old.stock.capacity) }
        ensures out { IfErr result (λ full. full.out ≡ self.old.stock.out) }
        ensures capacity { IfErr result (λ full. full.capacity ≡ self.old.stock.capacity) }
        ensures kept { OnErr result (self.new ≡ self.old) }
        ensures some { OnOk result (self.old.stock.out < self.old.stock.capacity) }
        ensures after { OnOk result (self.new ≡ record self.old { stock = one_more_out self.old.stock }) }
        ensures len { IfOk result (λ bytes. length bytes.items ≡ self.old.size) }
    {
        let capacity = self.slots.len() as u32;
        if self.out == capacity {
            return Err(Full {
                out: self.out,
                capacity,
            });
        }
        let bytes = self.slots[self.out as usize].take().unwrap();
        self.out += 1;
        Ok(bytes)
    }

    /// Puts an area back, whatever its bytes.
    pub fn put(&mut self, bytes: Vec<u8>)
        requires out { self.old.stock.out ≡ 0 → ⊥ }
        requires len { length bytes.items ≡ self.old.size }
        ensures { self.new ≡ record self.old { stock = one_fewer_out self.old.stock } }
    {
        prove!(bytes.len() == self.size as usize);
        self.out -= 1;
        self.slots[self.out as usize] = Some(bytes);
    }

    /// How many areas are out.
    pub fn out(&self) -> u32
        ensures { result ≡ self.now.stock.out }
    {
        self.out
    }
}
