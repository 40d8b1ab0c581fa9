//! A task comes to a processor.

ghost use Rattle.std.specs.Prelude.{◌≡◌, false, Some, if◌then◌else◌};
ghost use Rattle.xs_base.specs.declared.words.How.TheVariants as hows;
ghost use Rattle.xs_base.specs.Counts.{after_start, load_if};
ghost use Rattle.xs_base.specs.Task.{PrivateTask};
ghost use Rattle.xs_bank.specs.Bank.{counts_of};
ghost use Rattle.xs_bank.specs.Holds.{Holds};
ghost use Rattle.xs_bank.specs.SetUp.{WasSetUp};
ghost use Rattle.xs_task.specs.Parked.{IsParked};
ghost use Rattle.xs_task.specs.TaskArea.{IsTask};
ghost use Rattle.xs_switch.specs.Pkru.{given_pkru};
ghost use Rattle.xs_switch.specs.Running.{CanSave, IsRunning};

use crate::pkru::give_pkru;
use crate::restoring::restore;
use crate::taking::take_registers;
use xs_bank::{Bank, Cpu};
use xs_base::How;
use xs_task::Task;

/// Begins a turn of the parked task on the processor: its registers come from its area, or the bank still holds them; PKRU is
/// given apart, at a skip too (Linux 6.6, arch/x86/kernel/fpu/context.h, fpregs_restore_userregs; arch/x86/kernel/process_64.c,
/// x86_pkru_load). Where the bank still holds them, the processor's mark is the task and the task's last processor is this one.
/// A skip leaves the bank as it is but for PKRU.
pub fn switch_in<B: Bank>(task: &mut Task, cpu: &mut Cpu<B>, how: How)
    requires set_up { WasSetUp cpu.old.layout (B.state cpu.old.bank) cpu.old.initial }
    requires task { IsTask cpu.old.layout task.old }
    requires user { how ≡ hows.Kern → ⊥ }
    requires skip { how ≡ hows.Skip → (cpu.old.mark ≡ Some task.old.name) × (task.old.last ≡ Some cpu.old.number) }
    requires parked { (p : PrivateTask) × IsParked cpu.old.layout task.old p × (how ≡ hows.Skip → Holds (B.state cpu.old.bank) p) }
    ensures set_up { WasSetUp cpu.new.layout (B.state cpu.new.bank) cpu.new.initial }
    ensures whole { IsTask cpu.new.layout task.new }
    ensures task { task.new ≡ record task.old { last = Some cpu.old.number; need_load = false } }
    ensures cpu { cpu.new ≡ record cpu.old { bank = cpu.new.bank; mark = Some task.old.name } }
    ensures ready { CanSave cpu.new.layout task.new (B.state cpu.new.bank) }
    ensures running { (p : PrivateTask) → IsParked cpu.old.layout task.old p → (how ≡ hows.Skip → Holds (B.state cpu.old.bank) p) → IsRunning cpu.new.layout task.new (B.state cpu.new.bank) p }
    ensures holds { (p : PrivateTask) → IsParked cpu.old.layout task.old p → (how ≡ hows.Skip → Holds (B.state cpu.old.bank) p) → Holds (B.state cpu.new.bank) p }
    ensures skipped { how ≡ hows.Skip → B.state cpu.new.bank ≡ given_pkru (B.state cpu.old.bank) task.old.pkru }
    ensures counts { counts_of (B.state cpu.new.bank) ≡ after_start how (counts_of (B.state cpu.old.bank)) }
{
    let Some(lease) = &task.lease else {
        unreachable!()
    };
    take_registers(&mut cpu.bank, &cpu.layout, lease, how);
    give_pkru(&mut cpu.bank, task.pkru);
    cpu.mark = Some(task.name);
    task.last = Some(cpu.number);
    task.need_load = false;
}

/// Before a later line and before the end: where the task's registers are in its area, they come back.
pub fn resume<B: Bank>(task: &mut Task, cpu: &mut Cpu<B>)
    requires set_up { WasSetUp cpu.old.layout (B.state cpu.old.bank) cpu.old.initial }
    requires task { IsTask cpu.old.layout task.old }
    requires ready { CanSave cpu.old.layout task.old (B.state cpu.old.bank) }
    ensures set_up { WasSetUp cpu.new.layout (B.state cpu.new.bank) cpu.new.initial }
    ensures whole { IsTask cpu.new.layout task.new }
    ensures task { task.new ≡ (if task.old.need_load then record task.old { last = Some cpu.old.number; need_load = false } else task.old) }
    ensures mark { cpu.new.mark ≡ (if task.old.need_load then Some task.old.name else cpu.old.mark) }
    ensures cpu { cpu.new ≡ record cpu.old { bank = cpu.new.bank; mark = cpu.new.mark } }
    ensures ready { CanSave cpu.new.layout task.new (B.state cpu.new.bank) }
    ensures running { (p : PrivateTask) → IsRunning cpu.old.layout task.old (B.state cpu.old.bank) p → IsRunning cpu.new.layout task.new (B.state cpu.new.bank) p }
    ensures holds { (p : PrivateTask) → IsRunning cpu.old.layout task.old (B.state cpu.old.bank) p → Holds (B.state cpu.new.bank) p }
    ensures counts { counts_of (B.state cpu.new.bank) ≡ load_if task.old.need_load (counts_of (B.state cpu.old.bank)) }
{
    if task.need_load {
        let Some(lease) = &task.lease else {
            unreachable!()
        };
        restore(&mut cpu.bank, &cpu.layout, lease);
        // The bank has a file of its machine.
        let _ = cpu.bank.loads();
        cpu.mark = Some(task.name);
        task.last = Some(cpu.number);
        task.need_load = false;
    }
}
