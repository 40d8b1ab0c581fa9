//! Kernel sections, which use the registers for the kernel's own work (Linux 6.6, arch/x86/kernel/fpu/core.c,
//! kernel_fpu_begin_mask). That one writes XMM0 is this project's own.

ghost use Rattle.std.specs.Prelude.{◌≡◌, true, false, Some, None};
ghost use Rattle.xs_area.specs.declared.area.Lease.{Lease};
ghost use Rattle.xs_base.specs.Component.{pkru_number};
ghost use Rattle.xs_base.specs.Counts.{one_save, one_section, section_bytes, xmm0};
ghost use Rattle.xs_base.specs.File.{part, write_place};
ghost use Rattle.xs_base.specs.Task.{PrivateTask};
ghost use Rattle.xs_bank.specs.Bank.{counts_of};
ghost use Rattle.xs_bank.specs.SetUp.{WasSetUp};
ghost use Rattle.xs_task.specs.Marks.{IsSavedIn};
ghost use Rattle.xs_task.specs.TaskArea.{IsTask, KeepsArea};
ghost use Rattle.xs_switch.specs.Running.{CanSave, IsRunning};

use crate::leaving::save_task;
use xs_bank::{Bank, Cpu};
use xs_base::{Comp, Lane, Place};
use xs_task::Task;

/// The place of XMM0.
const XMM0: Place = Place {
    comp: Comp::SSE,
    offset: 0,
    len: 16,
};

/// A kernel section in a task's turn: the task's registers are saved before, the owner mark is cleared, and 16 times this byte
/// is written to XMM0. The task's private registers don't change.
pub fn kernel_section<B: Bank>(task: &mut Task, cpu: &mut Cpu<B>, byte: u8)
    requires set_up { WasSetUp cpu.old.layout (B.state cpu.old.bank) cpu.old.initial }
    requires task { IsTask cpu.old.layout task.old }
    requires in_bank { task.old.need_load ≡ false }
    requires ready { CanSave cpu.old.layout task.old (B.state cpu.old.bank) }
    ensures set_up { WasSetUp cpu.new.layout (B.state cpu.new.bank) cpu.new.initial }
    ensures whole { IsTask cpu.new.layout task.new }
    ensures task { task.new ≡ record task.old { lease = task.new.lease; need_load = true } }
    ensures area { KeepsArea task.old.lease task.new.lease }
    ensures cpu { cpu.new ≡ record cpu.old { bank = cpu.new.bank; mark = None } }
    ensures ready { CanSave cpu.new.layout task.new (B.state cpu.new.bank) }
    ensures saved { (lease : Lease) → task.new.lease ≡ Some lease → IsSavedIn cpu.old.layout lease (B.state cpu.old.bank).file }
    ensures running { (p : PrivateTask) → IsRunning cpu.old.layout task.old (B.state cpu.old.bank) p → IsRunning cpu.new.layout task.new (B.state cpu.new.bank) p }
    ensures file { (B.state cpu.new.bank).file ≡ write_place (B.state cpu.old.bank).file xmm0 (section_bytes byte) }
    ensures armed { (B.state cpu.new.bank).armed ≡ (B.state cpu.old.bank).armed }
    ensures counts { counts_of (B.state cpu.new.bank) ≡ one_section byte (one_save (counts_of (B.state cpu.old.bank))) }
{
    save_task(task, cpu);
    task.need_load = true;
    thread_section(cpu, byte);
}

/// A kernel section in a kernel thread, which has no registers to save: the owner mark is cleared, and 16 times this byte is
/// written to XMM0.
#[tactic(auto, unfolding(xs_base::specs::Counts::section_bytes))]
pub fn thread_section<B: Bank>(cpu: &mut Cpu<B>, byte: u8)
    requires set_up { WasSetUp cpu.old.layout (B.state cpu.old.bank) cpu.old.initial }
    ensures set_up { WasSetUp cpu.new.layout (B.state cpu.new.bank) cpu.new.initial }
    ensures file { (B.state cpu.new.bank).file ≡ write_place (B.state cpu.old.bank).file xmm0 (section_bytes byte) }
    ensures armed { (B.state cpu.new.bank).armed ≡ (B.state cpu.old.bank).armed }
    ensures pkru { part (B.state cpu.new.bank).file pkru_number ≡ part (B.state cpu.old.bank).file pkru_number }
    ensures counts { counts_of (B.state cpu.new.bank) ≡ one_section byte (counts_of (B.state cpu.old.bank)) }
    ensures cpu { cpu.new ≡ record cpu.old { bank = cpu.new.bank; mark = None } }
{
    // The bank has a file of its machine.
    let _ = cpu.bank.loads();
    cpu.mark = None;
    match cpu.bank.write(XMM0, &Lane::from_slice(&[byte; 16])) {
        Ok(()) => {}
        Err(_) => unreachable!(),
    }
}
