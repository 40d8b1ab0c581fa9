//! The processors of the program.

ghost use Rattle.std.specs.Prelude.{◌≡◌, ℕ, ◌≤◌, drop, length, slice_get, Some, IfOk};
ghost use Rattle.xs_bank.specs.declared.bank_of.BankOf.{BankOf};
ghost use Rattle.xs_bank.specs.declared.choice.Changes.{Changes};
ghost use Rattle.xs_bank.specs.Bank.{HasCountedNothing};
ghost use Rattle.xs_machine.specs.declared.proc.Proc.{Proc};
ghost use Rattle.xs_machine.specs.Processors.{AreSetUp};
ghost use Rattle.xs_top.specs.Run.{AreNumbered, AreUncounted};

use std::alloc::{AllocError, Global};
use xs_bank::{Bank, Cpu, TrackBank};
use xs_machine::Proc;
use xs_model::Script;

/// The most processors that a script may name.
const PROCESSORS: u32 = 16;

/// The processors, numbered from 0 in order, whose banks save only what may have changed.
pub fn processors(alloc: Global) -> Result<Vec<Proc<TrackBank>>, AllocError>
    ensures many { IfOk result (λ procs. length procs.items ≡ 16) }
    ensures numbers { IfOk result (λ procs. AreNumbered procs.items) }
    ensures counts { IfOk result (λ procs. AreUncounted ⟦<TrackBank as Bank>⟧.state procs.items) }
{
    let mut procs = Vec::new(alloc);
    'each: for number in 0..PROCESSORS {
        procs.push(processor(alloc, number)?)?;
    }
    Ok(procs)
}

/// A processor of this number that has counted nothing.
fn processor(alloc: Global, number: u32) -> Result<Proc<TrackBank>, AllocError>
    ensures number { IfOk result (λ proc. proc.cpu.number ≡ number) }
    ensures counts { IfOk result (λ proc. HasCountedNothing (⟦<TrackBank as Bank>⟧.state proc.cpu.bank)) }
{
    let bank = TrackBank::new(alloc)?;
    Ok(Proc::new(Cpu::new(alloc, number, bank)?))
}

/// Sets the script's processors up for its machine: they are the first ones. No bank counts anything by it. Takes no memory.
pub fn set_up<B: Bank>(script: &Script, procs: &mut [Proc<B>])
    requires many { script.now.cpus ≤ length procs.old }
    requires numbers { AreNumbered procs.old }
    requires counts { AreUncounted B.state procs.old }
    ensures set_up { AreSetUp B.state script.now procs.new }
    ensures numbers { AreNumbered procs.new }
    ensures others { drop script.now.cpus procs.new ≡ drop script.now.cpus procs.old }
{
    'each: for number in 0..script.cpus as usize {
        let proc = &mut procs[number];
        proc.cpu.set_up(&script.layout);
    }
}
