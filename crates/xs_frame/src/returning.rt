//! The return from a handler.

ghost use Rattle.std.specs.Prelude.{◌≡◌, ◌<◌, ◌^◌, true, false, Some, IfOk, MatchResult};
ghost use Rattle.xs_area.specs.declared.area.Lease.{Lease};
ghost use Rattle.xs_base.specs.Counts.{one_load};
ghost use Rattle.xs_base.specs.Frame.{Refused, return_of, after_return};
ghost use Rattle.xs_base.specs.KernelArea.{class_features};
ghost use Rattle.xs_base.specs.Task.{PrivateTask};
ghost use Rattle.xs_bank.specs.Bank.{counts_of};
ghost use Rattle.xs_bank.specs.Holds.{Holds};
ghost use Rattle.xs_bank.specs.SetUp.{WasSetUp};
ghost use Rattle.xs_task.specs.Private.{HasForm};
ghost use Rattle.xs_task.specs.TaskArea.{IsTask, KeepsArea};
ghost use Rattle.xs_switch.specs.Armed.{armed_for};
ghost use Rattle.xs_switch.specs.Running.{CanSave, IsRunning};
ghost use Rattle.xs_image.specs.Parts.{AreOf};
ghost use Rattle.xs_image.specs.Restored.{restored_as, IsImage};

use crate::initial::make_initial;
use crate::taking::take;
use xs_bank::{Bank, Cpu};
use xs_base::HeaderError;
use xs_image::{Image, Restored, read_frame, user_features, user_size};
use xs_layout::Layout;
use xs_task::Task;

/// What the task's frame has, or the first test that it fails.
fn read_image(task: &Task, layout: &Layout) -> Result<Image, HeaderError>
    requires task { IsTask layout.now task.now }
    ensures image { (p : PrivateTask) → p.file.rows ≡ layout.now → HasForm task.now p → MatchResult result (λ image. IsImage p image) (λ e. return_of p ≡ Refused e) }
    ensures small { IfOk result (λ image. image.parts.mxcsr < 2 ^ 16) }
    ensures within { (lease : Lease) → task.now.lease ≡ Some lease → IfOk result (λ image. AreOf image.parts (class_features layout.now lease.class)) }
{
    let Some(lease) = &task.lease else {
        unreachable!()
    };
    let user = user_features(layout, lease.class);
    let size = user_size(layout, lease.class);
    read_frame(layout, &task.frame, user, size)
}

/// Returns from the handler of the task whose registers are in the bank: they become those that its frame has, the whole of it or
/// its legacy region alone (Linux 6.6, arch/x86/kernel/fpu/signal.c, fpu__restore_sig). Refused by the first test that the frame
/// fails: then they become initial, and PKRU that of a start, which is this project's own. This is the whole step of the private
/// task: where the frame is taken the call also sets that no handler runs, and the place to that before the signal.
pub fn sigreturn<B: Bank>(task: &mut Task, cpu: &mut Cpu<B>) -> Result<Restored, HeaderError>
    requires set_up { WasSetUp cpu.old.layout (B.state cpu.old.bank) cpu.old.initial }
    requires task { IsTask cpu.old.layout task.old }
    requires in_bank { task.old.need_load ≡ false }
    requires armed { (lease : Lease) → task.old.lease ≡ Some lease → (B.state cpu.old.bank).armed ≡ armed_for cpu.old.layout lease.class }
    ensures set_up { WasSetUp cpu.new.layout (B.state cpu.new.bank) cpu.new.initial }
    ensures whole { IsTask cpu.new.layout task.new }
    ensures task { MatchResult result (λ _. task.new ≡ record task.old { lease = task.new.lease; handling = false; place = task.old.back }) (λ _. task.new ≡ task.old) }
    ensures area { KeepsArea task.old.lease task.new.lease }
    ensures cpu { cpu.new ≡ record cpu.old { bank = cpu.new.bank } }
    ensures ready { CanSave cpu.new.layout task.new (B.state cpu.new.bank) }
    ensures answer { (p : PrivateTask) → IsRunning cpu.old.layout task.old (B.state cpu.old.bank) p → MatchResult result (λ r. return_of p ≡ restored_as r (B.state cpu.new.bank).file) (λ e. return_of p ≡ Refused e) }
    ensures running { (p : PrivateTask) → IsRunning cpu.old.layout task.old (B.state cpu.old.bank) p → IsRunning cpu.new.layout task.new (B.state cpu.new.bank) (after_return p (return_of p)) }
    ensures holds { (p : PrivateTask) → IsRunning cpu.old.layout task.old (B.state cpu.old.bank) p → Holds (B.state cpu.new.bank) (after_return p (return_of p)) }
    ensures counts { counts_of (B.state cpu.new.bank) ≡ one_load (counts_of (B.state cpu.old.bank)) }
{
    match read_image(task, &cpu.layout) {
        Ok(image) => {
            take(task, cpu, &image.parts);
            Ok(image.restored)
        }
        Err(error) => {
            make_initial(cpu);
            Err(error)
        }
    }
}
