//! The registers that a frame has.

ghost use Rattle.std.specs.Prelude.{◌≡◌, ◌<◌, ◌^◌, false, Some};
ghost use Rattle.xs_area.specs.declared.area.Lease.{Lease};
ghost use Rattle.xs_base.specs.Counts.{one_load};
ghost use Rattle.xs_base.specs.File.{initial_file};
ghost use Rattle.xs_base.specs.Image.{image_file};
ghost use Rattle.xs_base.specs.KernelArea.{class_features};
ghost use Rattle.xs_bank.specs.Bank.{counts_of};
ghost use Rattle.xs_bank.specs.SetUp.{WasSetUp};
ghost use Rattle.xs_task.specs.TaskArea.{IsTask, KeepsArea};
ghost use Rattle.xs_switch.specs.Running.{CanSave};
ghost use Rattle.xs_image.specs.Parts.{AreOf};

use xs_bank::{Bank, Cpu};
use xs_base::Parts;
use xs_switch::{give_pkru, restore};
use xs_task::{Task, put_parts};

/// Gives the task the registers that its frame has, by way of its area, and ends its handler (Linux 6.6,
/// arch/x86/kernel/fpu/signal.c, __fpu_restore_sig).
pub fn take<B: Bank>(task: &mut Task, cpu: &mut Cpu<B>, parts: &Parts)
    requires set_up { WasSetUp cpu.old.layout (B.state cpu.old.bank) cpu.old.initial }
    requires task { IsTask cpu.old.layout task.old }
    requires small { parts.now.mxcsr < 2 ^ 16 }
    requires within { (lease : Lease) → task.old.lease ≡ Some lease → AreOf parts.now (class_features cpu.old.layout lease.class) }
    ensures set_up { WasSetUp cpu.new.layout (B.state cpu.new.bank) cpu.new.initial }
    ensures whole { IsTask cpu.new.layout task.new }
    ensures task { task.new ≡ record task.old { lease = task.new.lease; handling = false; place = task.old.back } }
    ensures area { KeepsArea task.old.lease task.new.lease }
    ensures cpu { cpu.new ≡ record cpu.old { bank = cpu.new.bank } }
    ensures ready { CanSave cpu.new.layout task.new (B.state cpu.new.bank) }
    ensures file { (B.state cpu.new.bank).file ≡ image_file (initial_file cpu.old.layout) task.old.frame.items parts.now }
    ensures counts { counts_of (B.state cpu.new.bank) ≡ one_load (counts_of (B.state cpu.old.bank)) }
{
    let Some(lease) = &mut task.lease else {
        unreachable!()
    };
    put_parts(&cpu.layout, &task.frame, parts, lease);
    restore(&mut cpu.bank, &cpu.layout, lease);
    // The bank has a file of its machine.
    let _ = cpu.bank.loads();
    give_pkru(&mut cpu.bank, parts.pkru);
    task.handling = false;
    task.place = task.back;
}
