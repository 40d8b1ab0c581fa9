//! A bank with what random calls on it need.

use crate::calls::Refusal;
use crate::random::Random;
use std::alloc::{AllocError, Global};
use xs_area::Area;
use xs_bank::{Bank, Trap};

/// How many kinds of call are counted.
pub const KINDS: usize = 11;

/// A number that takes up all that was answered, in order, as FNV-1a does, and how many calls of each kind were answered.
#[derive(Drop)]
pub struct Log {
    /// The number.
    pub digest: u64,
    /// How many calls of each kind.
    pub answered: [u32; KINDS],
}

impl Log {
    /// Takes up a number.
    pub fn take(&mut self, number: u64) {
        self.digest = (self.digest ^ number).wrapping_mul(0x0100_0000_01b3);
    }

    /// Takes up bytes.
    pub fn take_all(&mut self, bytes: &[u8]) {
        for byte in bytes {
            self.take(u64::from(*byte));
        }
    }

    /// Counts a call of this kind.
    pub fn count(&mut self, kind: usize) {
        if kind < KINDS {
            self.answered[kind] = self.answered[kind].saturating_add(1);
        }
    }

    /// Takes up the outcome of a call of this kind, and counts it where it was answered.
    pub fn done(&mut self, kind: usize, outcome: Result<(), Refusal>) {
        match outcome {
            Ok(()) => self.count(kind),
            Err(refusal) => self.take(number_of(refusal)),
        }
    }

    /// Takes up the instructions of a bank, their trail, its loads and its saves so far, and PKRU.
    pub fn counts<B: Bank>(&mut self, bank: &B) {
        let execs = bank.execs();
        self.take(execs.count);
        self.take(execs.trail);
        self.take(bank.loads());
        self.take(bank.saves());
        self.take(u64::from(bank.rdpkru()));
    }
}

/// A number of its own for each refusal.
fn number_of(refusal: Refusal) -> u64 {
    match refusal {
        Refusal::NotMade => 1,
        Refusal::Trapped(Trap::Gp(error)) => (error as u64).wrapping_add(2),
        Refusal::Trapped(Trap::Nm(set)) => set.0,
    }
}

/// What calls need beside their bank and areas.
#[derive(Drop)]
pub struct Tools {
    /// Bytes that a bank saves into.
    pub buffer: Vec<u8>,
    /// Random numbers.
    pub random: Random,
    /// What was answered.
    pub log: Log,
}

/// A bank, two areas of different numbers, which may be of either format, and what random calls need.
#[derive(Drop)]
pub struct Side<B: Bank> {
    /// The bank.
    pub bank: B,
    /// An area that has no room for TILEDATA.
    pub small: Area,
    /// One with room for every component.
    pub large: Area,
    /// What calls need.
    pub tools: Tools,
}

/// The side of a bank, with areas of zeros.
pub fn side_of<B: Bank>(alloc: Global, bank: B) -> Result<Side<B>, AllocError> {
    let small = area_of(alloc, 1, 2816)?;
    let large = area_of(alloc, 2, 11008)?;
    let tools = tools_of(alloc)?;
    Ok(Side {
        bank,
        small,
        large,
        tools,
    })
}

/// An area of zeros.
fn area_of(alloc: Global, id: u64, len: usize) -> Result<Area, AllocError> {
    let bytes = vec![in alloc; 0u8; len]?;
    Ok(Area { id, bytes })
}

/// The first random number, and nothing answered yet.
fn tools_of(alloc: Global) -> Result<Tools, AllocError> {
    let buffer = vec![in alloc; 0u8; 11008]?;
    Ok(Tools {
        buffer,
        random: Random { state: 20240229 },
        log: Log {
            digest: 0xcbf2_9ce4_8422_2325,
            answered: [0; KINDS],
        },
    })
}
