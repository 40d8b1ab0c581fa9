//! The delivery of a signal.

ghost use Rattle.std.specs.Prelude.{◌≡◌, true, false};
ghost use Rattle.xs_base.specs.Counts.{one_load, one_save};
ghost use Rattle.xs_base.specs.Frame.{delivered};
ghost use Rattle.xs_base.specs.Task.{PrivateTask};
ghost use Rattle.xs_bank.specs.Bank.{counts_of};
ghost use Rattle.xs_bank.specs.Holds.{Holds};
ghost use Rattle.xs_bank.specs.SetUp.{WasSetUp};
ghost use Rattle.xs_task.specs.TaskArea.{IsTask, KeepsArea};
ghost use Rattle.xs_switch.specs.Running.{CanSave, IsRunning};

use crate::frame::write_frame;
use crate::initial::make_initial;
use xs_bank::{Bank, Cpu};
use xs_switch::save_task;
use xs_task::Task;

/// Delivers a signal to the task whose registers are in the bank: they are saved as a frame, which takes up the whole memory of the
/// frame, they become initial, and PKRU is that of a start (Linux 6.6, arch/x86/kernel/fpu/signal.c, copy_fpstate_to_sigframe;
/// arch/x86/kernel/signal.c, handle_signal). This is the whole step of the private task: the call also sets that a handler runs, its
/// first line as the place, and the place to go back to.
pub fn deliver<B: Bank>(task: &mut Task, cpu: &mut Cpu<B>)
    requires set_up { WasSetUp cpu.old.layout (B.state cpu.old.bank) cpu.old.initial }
    requires task { IsTask cpu.old.layout task.old }
    requires in_bank { task.old.need_load ≡ false }
    requires ready { CanSave cpu.old.layout task.old (B.state cpu.old.bank) }
    ensures set_up { WasSetUp cpu.new.layout (B.state cpu.new.bank) cpu.new.initial }
    ensures whole { IsTask cpu.new.layout task.new }
    ensures task { task.new ≡ record task.old { lease = task.new.lease; frame = task.new.frame; handling = true; place = 0; back = task.old.place } }
    ensures area { KeepsArea task.old.lease task.new.lease }
    ensures cpu { cpu.new ≡ record cpu.old { bank = cpu.new.bank } }
    ensures ready { CanSave cpu.new.layout task.new (B.state cpu.new.bank) }
    ensures running { (p : PrivateTask) → IsRunning cpu.old.layout task.old (B.state cpu.old.bank) p → IsRunning cpu.new.layout task.new (B.state cpu.new.bank) (delivered p) }
    ensures holds { (p : PrivateTask) → IsRunning cpu.old.layout task.old (B.state cpu.old.bank) p → Holds (B.state cpu.new.bank) (delivered p) }
    ensures counts { counts_of (B.state cpu.new.bank) ≡ one_load (one_save (counts_of (B.state cpu.old.bank))) }
{
    save_task(task, cpu);
    let Some(lease) = &task.lease else {
        unreachable!()
    };
    let pkru = cpu.bank.rdpkru();
    write_frame(&cpu.layout, lease, pkru, &mut task.frame);
    make_initial(cpu);
    task.handling = true;
    task.back = task.place;
    task.place = 0;
}
