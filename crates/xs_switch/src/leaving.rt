//! A task leaves a processor.

ghost use Rattle.std.specs.Prelude.{◌≡◌, true, false, not, Some};
ghost use Rattle.xs_area.specs.declared.area.Lease.{Lease};
ghost use Rattle.xs_base.specs.Counts.{save_if};
ghost use Rattle.xs_base.specs.File.{pkru_of};
ghost use Rattle.xs_base.specs.Task.{PrivateTask, parked};
ghost use Rattle.xs_base.specs.Trail.{counted};
ghost use Rattle.xs_bank.specs.Bank.{counts_of};
ghost use Rattle.xs_bank.specs.SetUp.{WasSetUp};
ghost use Rattle.xs_task.specs.Marks.{IsSavedIn};
ghost use Rattle.xs_task.specs.Parked.{IsParked};
ghost use Rattle.xs_task.specs.TaskArea.{IsTask, KeepsArea};
ghost use Rattle.xs_switch.specs.Running.{CanSave, IsRunning};

use crate::saving::save;
use xs_bank::{Bank, Cpu};
use xs_task::{Task, a_saved_task_is_parked};

/// Saves the registers of a task into its area.
pub fn save_task<B: Bank>(task: &mut Task, cpu: &mut Cpu<B>)
    requires set_up { WasSetUp cpu.old.layout (B.state cpu.old.bank) cpu.old.initial }
    requires task { IsTask cpu.old.layout task.old }
    requires in_bank { task.old.need_load ≡ false }
    requires ready { CanSave cpu.old.layout task.old (B.state cpu.old.bank) }
    ensures set_up { WasSetUp cpu.new.layout (B.state cpu.new.bank) cpu.new.initial }
    ensures whole { IsTask cpu.old.layout task.new }
    ensures task { task.new ≡ record task.old { lease = task.new.lease } }
    ensures area { KeepsArea task.old.lease task.new.lease }
    ensures cpu { cpu.new ≡ record cpu.old { bank = cpu.new.bank } }
    ensures saved { (lease : Lease) → task.new.lease ≡ Some lease → IsSavedIn cpu.old.layout lease (B.state cpu.old.bank).file }
    ensures bank { B.state cpu.new.bank ≡ record (B.state cpu.old.bank) { saves = counted (B.state cpu.old.bank).saves } }
{
    let Some(lease) = &mut task.lease else {
        unreachable!()
    };
    save(&mut cpu.bank, &cpu.layout, lease);
}

/// Where the registers are in the bank they are saved.
fn settle<B: Bank>(task: &mut Task, cpu: &mut Cpu<B>)
    requires set_up { WasSetUp cpu.old.layout (B.state cpu.old.bank) cpu.old.initial }
    requires task { IsTask cpu.old.layout task.old }
    requires ready { CanSave cpu.old.layout task.old (B.state cpu.old.bank) }
    ensures set_up { WasSetUp cpu.new.layout (B.state cpu.new.bank) cpu.new.initial }
    ensures whole { IsTask cpu.old.layout task.new }
    ensures task { task.new ≡ record task.old { lease = task.new.lease } }
    ensures area { KeepsArea task.old.lease task.new.lease }
    ensures unchanged { task.old.need_load ≡ true → task.new.lease ≡ task.old.lease }
    ensures cpu { cpu.new ≡ record cpu.old { bank = cpu.new.bank } }
    ensures saved { task.old.need_load ≡ false → (lease : Lease) → task.new.lease ≡ Some lease → IsSavedIn cpu.old.layout lease (B.state cpu.old.bank).file }
    ensures file { (B.state cpu.new.bank).file ≡ (B.state cpu.old.bank).file }
    ensures armed { (B.state cpu.new.bank).armed ≡ (B.state cpu.old.bank).armed }
    ensures counts { counts_of (B.state cpu.new.bank) ≡ save_if (not task.old.need_load) (counts_of (B.state cpu.old.bank)) }
{
    if !task.need_load {
        save_task(task, cpu);
    }
}

/// Ends a turn: where the registers are in the bank they are saved, and PKRU is kept apart (Linux 6.6,
/// arch/x86/include/asm/fpu/sched.h, switch_fpu_prepare). The owner mark stays, and the task is parked.
pub fn switch_out<B: Bank>(task: &mut Task, cpu: &mut Cpu<B>)
    requires set_up { WasSetUp cpu.old.layout (B.state cpu.old.bank) cpu.old.initial }
    requires task { IsTask cpu.old.layout task.old }
    requires ready { CanSave cpu.old.layout task.old (B.state cpu.old.bank) }
    ensures set_up { WasSetUp cpu.new.layout (B.state cpu.new.bank) cpu.new.initial }
    ensures whole { IsTask cpu.new.layout task.new }
    ensures task { task.new ≡ record task.old { lease = task.new.lease; last = Some cpu.old.number; need_load = true; pkru = pkru_of (B.state cpu.old.bank).file } }
    ensures area { KeepsArea task.old.lease task.new.lease }
    ensures unchanged { task.old.need_load ≡ true → task.new.lease ≡ task.old.lease }
    ensures saved { task.old.need_load ≡ false → (lease : Lease) → task.new.lease ≡ Some lease → IsSavedIn cpu.old.layout lease (B.state cpu.old.bank).file }
    ensures parked { (p : PrivateTask) → IsRunning cpu.old.layout task.old (B.state cpu.old.bank) p → IsParked cpu.new.layout task.new (parked p) }
    ensures cpu { cpu.new ≡ record cpu.old { bank = cpu.new.bank } }
    ensures file { (B.state cpu.new.bank).file ≡ (B.state cpu.old.bank).file }
    ensures armed { (B.state cpu.new.bank).armed ≡ (B.state cpu.old.bank).armed }
    ensures counts { counts_of (B.state cpu.new.bank) ≡ save_if (not task.old.need_load) (counts_of (B.state cpu.old.bank)) }
{
    settle(task, cpu);
    // The bank has a file of its machine.
    let _ = cpu.bank.loads();
    task.pkru = cpu.bank.rdpkru();
    task.last = Some(cpu.number);
    task.need_load = true;
    a_saved_task_is_parked();
}
