//! A bank of either kind: its registers, its counts, and a choice of what its saves write.

ghost use Rattle.std.specs.Prelude.{◌≡◌, None, IfOk};
ghost use Rattle.xs_bank.specs.Bank as banks;
ghost use Rattle.xs_base.specs.File.{initial_file};
ghost use Rattle.xs_base.specs.Layout.{avx_rows};

use crate::bank::Bank;
use crate::choice::{Changes, Choice, Everything};
use crate::instruction::{Execs, Trap};
use crate::registers::Registers;
use crate::saving::{save_compacted, save_standard};
use crate::trail::{READ, WRITE, counted, executed, released};
use std::alloc::{AllocError, Global};
use std::marker::PhantomData;
use xs_area::Area;
use xs_base::{Features, Lane, Place};
use xs_layout::Layout;

/// A bank that writes every component that it is asked to save.
pub type PlainBank = BankOf<Everything>;

/// A bank whose `xsaveopt` and `xsaves` leave out components that are initial, and those that weren't changed since the
/// area was loaded.
pub type TrackBank = BankOf<Changes>;

/// A bank with a choice of what its saves write.
#[derive(Drop)]
pub struct BankOf<C: Choice> {
    registers: Registers,
    execs: Execs,
    loads: u64,
    saves: u64,
    choice: PhantomData<C>,
}

impl<C: Choice> BankOf<C> {
    /// A bank of the machine with x87, SSE and AVX alone, with every register initial and counts 0. Fails for want of
    /// memory alone; no other call takes memory.
    pub fn new(alloc: Global) -> Result<BankOf<C>, AllocError>
        ensures { IfOk result (λ bank. ⟦<BankOf<C> as Bank>⟧.state bank ≡ record { file = initial_file avx_rows; armed = 0; tracked = None; execs = record { count = 0; trail = 0 }; loads = 0; saves = 0 }) }
    {
        Ok(BankOf {
            registers: Registers::new(alloc)?,
            execs: Execs { count: 0, trail: 0 },
            loads: 0,
            saves: 0,
            choice: PhantomData,
        })
    }
}

impl<C: Choice> Bank for BankOf<C> {
    ghost state = { λ b. record { file = b.registers.file; armed = b.registers.armed; tracked = b.registers.tracked; execs = b.execs; loads = b.loads; saves = b.saves } };

    fn set_up(&mut self, layout: &Layout) {
        self.registers.set_up(layout);
    }

    fn read(&mut self, place: Place) -> Result<Lane, Trap> {
        let lane = self.registers.read(place)?;
        self.execs = executed(self.execs, READ, place, lane.as_slice());
        Ok(lane)
    }

    fn write(&mut self, place: Place, lane: &Lane) -> Result<(), Trap> {
        self.registers.write(place, lane)?;
        self.execs = executed(self.execs, WRITE, place, lane.as_slice());
        Ok(())
    }

    fn tile_release(&mut self) {
        self.registers.release();
        self.execs = released(self.execs);
    }

    fn xsave(&mut self, mask: Features, into: &mut [u8]) {
        save_standard(self.registers.file(), mask, mask, into);
        self.saves = counted(self.saves);
    }

    fn xsaveopt(&mut self, mask: Features, area: &mut Area) {
        let written = C::standard(&self.registers, mask, area.id, &area.bytes);
        save_standard(self.registers.file(), mask, written, &mut area.bytes);
        self.saves = counted(self.saves);
    }

    fn xsaves(&mut self, mask: Features, area: &mut Area) {
        let written = C::compacted(&self.registers, mask, area.id, &area.bytes);
        save_compacted(self.registers.file(), mask, written, &mut area.bytes);
        self.saves = counted(self.saves);
    }

    fn xrstor(&mut self, mask: Features, area: &Area) -> Result<(), Trap> {
        self.registers.load_standard(area.id, mask, &area.bytes)?;
        self.loads = counted(self.loads);
        Ok(())
    }

    fn xrstors(&mut self, mask: Features, area: &Area) -> Result<(), Trap> {
        self.registers.load_compacted(area.id, mask, &area.bytes)?;
        self.loads = counted(self.loads);
        Ok(())
    }

    fn rdpkru(&self) -> u32 {
        self.registers.pkru()
    }

    fn wrpkru(&mut self, value: u32) {
        self.registers.set_pkru(value);
    }

    fn set_xfd(&mut self, armed: Features) {
        self.registers.arm(armed);
    }

    fn execs(&self) -> Execs {
        self.execs
    }

    fn loads(&self) -> u64 {
        // The file is one of its machine.
        let _ = self.registers.file().layout();
        self.loads
    }

    fn saves(&self) -> u64 {
        self.saves
    }
}
