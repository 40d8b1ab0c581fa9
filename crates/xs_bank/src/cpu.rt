//! A processor: its bank, and what the kernel keeps for it.

ghost use Rattle.std.specs.Prelude.{◌≡◌, None, IfOk};
ghost use Rattle.xs_base.specs.Layout.{avx_rows};
ghost use Rattle.xs_bank.specs.Bank as banks;
ghost use Rattle.xs_bank.specs.SetUp.{WasSetUp};

use crate::bank::Bank;
use crate::initial_area::InitialArea;
use std::alloc::{AllocError, Global};
use xs_layout::Layout;

/// A processor with its bank. Beside it the kernel keeps the owner mark, which is the block whose registers the bank may
/// still hold (Linux 6.6, arch/x86/include/asm/fpu/api.h, fpu_fpregs_owner_ctx), and an area in the initial configuration,
/// from which every register is made initial (arch/x86/kernel/fpu/core.c, init_fpstate).
#[derive(Drop)]
pub struct Cpu<B: Bank> {
    /// The processor's number.
    pub number: u32,
    /// The machine, which is the bank's from the set-up on.
    pub layout: Layout,
    /// The registers.
    pub bank: B,
    /// The owner mark.
    pub mark: Option<u32>,
    /// A Small area without state, of number 0.
    pub initial: InitialArea,
}

impl<B: Bank> Cpu<B> {
    /// A processor that isn't set up: its machine is the one with x87, SSE and AVX alone, and its mark is none. The bank stays
    /// as it is. Fails for want of memory alone, and then the bank is dropped.
    pub fn new(alloc: Global, number: u32, bank: B) -> Result<Cpu<B>, AllocError>
        ensures number { IfOk result (λ cpu. cpu.number ≡ number) }
        ensures layout { IfOk result (λ cpu. cpu.layout ≡ avx_rows) }
        ensures bank { IfOk result (λ cpu. cpu.bank ≡ bank) }
        ensures mark { IfOk result (λ cpu. cpu.mark ≡ None) }
    {
        let initial = InitialArea::new(alloc)?;
        Ok(Cpu {
            number,
            layout: Layout::avx(),
            bank,
            mark: None,
            initial,
        })
    }

    /// Sets the processor up for a machine: the bank is set up, the mark is none, and the initial area is a Small one in the
    /// compacted format that stands for the initial file and has the bytes of each place that it names. Takes no memory.
    pub fn set_up(&mut self, layout: &Layout)
        ensures number { self.new.number ≡ self.old.number }
        ensures layout { self.new.layout ≡ layout.now }
        ensures bank { B.state self.new.bank ≡ banks.set_up (B.state self.old.bank) layout.now }
        ensures mark { self.new.mark ≡ None }
        ensures set_up { WasSetUp layout.now (B.state self.new.bank) self.new.initial }
    {
        self.bank.set_up(layout);
        self.layout = *layout;
        self.mark = None;
        self.initial.set_up(layout);
    }
}
