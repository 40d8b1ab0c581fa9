//! What a tracer writes.

ghost use Rattle.std.specs.Prelude.{◌≡◌, ℕ, ◌<◌, ◌^◌, true, None, IfErr, IfOk, MatchResult};
ghost use Rattle.xs_base.specs.declared.words.Set.TheVariants as which;
ghost use Rattle.xs_base.specs.RegisterSet.{Accepted, after_set, set_result};
ghost use Rattle.xs_base.specs.Task.{PrivateTask};
ghost use Rattle.xs_task.specs.Parked.{IsParked};
ghost use Rattle.xs_task.specs.TaskArea.{IsTask, KeepsArea};
ghost use Rattle.xs_image.specs.Answer.{refused_as};

use crate::legacy::put_legacy;
use xs_base::Set;
use xs_image::{RegsetError, read_fx, read_xstate, user_features};
use xs_layout::Layout;
use xs_task::{Task, put_parts};

/// Gives a stopped task the registers of the bytes of a set, or answers why they are refused. No processor has the registers of
/// a task that took them; a refusal changes nothing (Linux 6.6, arch/x86/kernel/fpu/regset.c, xstateregs_set, xfpregs_set and
/// fpu_force_restore).
pub fn set(layout: &Layout, task: &mut Task, set: Set, bytes: &[u8]) -> Result<(), RegsetError>
    requires task { IsTask layout.now task.old }
    requires need_load { task.old.need_load ≡ true }
    ensures whole { IsTask layout.now task.new }
    ensures error { (p : PrivateTask) → IsParked layout.now task.old p → MatchResult result (λ _. set_result p set bytes.now ≡ Accepted (after_set p set bytes.now)) (λ e. set_result p set bytes.now ≡ refused_as e) }
    ensures accepted { (p : PrivateTask) → IsParked layout.now task.old p → IfOk result (λ _. IsParked layout.now task.new (after_set p set bytes.now)) }
    ensures last { IfOk result (λ _. task.new ≡ record task.old { lease = task.new.lease; pkru = task.new.pkru; last = None }) }
    ensures refused { IfErr result (λ _. task.new ≡ task.old) }
    ensures area { KeepsArea task.old.lease task.new.lease }
{
    match set {
        Set::Xstate => set_xstate(layout, task, bytes),
        Set::Fx => set_fx(layout, task, bytes),
    }
}

/// The Xstate set: what the bytes don't have is initial.
fn set_xstate(layout: &Layout, task: &mut Task, bytes: &[u8]) -> Result<(), RegsetError>
    requires task { IsTask layout.now task.old }
    ensures whole { IsTask layout.now task.new }
    ensures error { (p : PrivateTask) → IsParked layout.now task.old p → MatchResult result (λ _. set_result p which.Xstate bytes.now ≡ Accepted (after_set p which.Xstate bytes.now)) (λ e. set_result p which.Xstate bytes.now ≡ refused_as e) }
    ensures accepted { (p : PrivateTask) → IsParked layout.now task.old p → IfOk result (λ _. IsParked layout.now task.new (after_set p which.Xstate bytes.now)) }
    ensures last { IfOk result (λ _. task.new ≡ record task.old { lease = task.new.lease; pkru = task.new.pkru; last = None }) }
    ensures refused { IfErr result (λ _. task.new ≡ task.old) }
    ensures area { KeepsArea task.old.lease task.new.lease }
{
    let Some(lease) = &mut task.lease else {
        unreachable!()
    };
    let user = user_features(layout, lease.class);
    let parts = read_xstate(layout, bytes, user)?;
    put_parts(layout, bytes, &parts, lease);
    task.pkru = parts.pkru;
    task.last = None;
    Ok(())
}

/// The Fx set: x87, the XMM registers and MXCSR come from the bytes, and all else stays.
fn set_fx(layout: &Layout, task: &mut Task, bytes: &[u8]) -> Result<(), RegsetError>
    requires task { IsTask layout.now task.old }
    ensures whole { IsTask layout.now task.new }
    ensures error { (p : PrivateTask) → IsParked layout.now task.old p → MatchResult result (λ _. set_result p which.Fx bytes.now ≡ Accepted (after_set p which.Fx bytes.now)) (λ e. set_result p which.Fx bytes.now ≡ refused_as e) }
    ensures accepted { (p : PrivateTask) → IsParked layout.now task.old p → IfOk result (λ _. IsParked layout.now task.new (after_set p which.Fx bytes.now)) }
    ensures last { IfOk result (λ _. task.new ≡ record task.old { lease = task.new.lease; last = None }) }
    ensures refused { IfErr result (λ _. task.new ≡ task.old) }
    ensures area { KeepsArea task.old.lease task.new.lease }
{
    let control = read_fx(bytes)?;
    // PKRU, which stays, is a number of 32 bits.
    let _ = own_pkru(task);
    let Some(lease) = &mut task.lease else {
        unreachable!()
    };
    put_legacy(layout, bytes, control, lease);
    task.last = None;
    Ok(())
}

/// A task's PKRU.
fn own_pkru(task: &Task) -> u32
    ensures { task.now.pkru < 2 ^ 32 }
{
    task.pkru
}
