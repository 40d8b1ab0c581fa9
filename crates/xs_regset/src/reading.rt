//! What a tracer reads.

ghost use Rattle.std.specs.Prelude.{◌≡◌, ℕ, ◌≤◌, true, length};
ghost use Rattle.xs_base.specs.declared.words.Set.TheVariants as which;
ghost use Rattle.xs_base.specs.Bytes.{splice};
ghost use Rattle.xs_base.specs.RegisterSet.{set_reply};
ghost use Rattle.xs_base.specs.Task.{PrivateTask, buffer_length};
ghost use Rattle.xs_task.specs.Parked.{IsParked};
ghost use Rattle.xs_task.specs.TaskArea.{IsTask};

use crate::marks::marks;
use xs_area::standard_of;
use xs_base::{Features, Set, clear, put_number};
use xs_image::user_features;
use xs_layout::Layout;
use xs_task::{Task, an_area_has_its_places};

/// Writes a register set of a stopped task to the front of `out`, 16,384 bytes, and answers how many bytes it has. What is
/// behind them stays (Linux 6.6, arch/x86/kernel/fpu/regset.c, xstateregs_get and xfpregs_get).
pub fn get(layout: &Layout, task: &Task, set: Set, out: &mut [u8]) -> u32
    requires task { IsTask layout.now task.now }
    requires need_load { task.now.need_load ≡ true }
    requires room { length out.old ≡ buffer_length }
    ensures reply { (p : PrivateTask) → IsParked layout.now task.now p → out.new ≡ splice 0 (set_reply p set) out.old }
    ensures count { (p : PrivateTask) → IsParked layout.now task.now p → result ≡ length (set_reply p set) }
    ensures len { length out.new ≡ length out.old }
{
    match set {
        Set::Xstate => get_xstate(layout, task, out),
        Set::Fx => get_fx(layout, task, out),
    }
}

/// The Xstate set: the standard bytes of every component over zeros, and the machine's features and the marks in them.
fn get_xstate(layout: &Layout, task: &Task, out: &mut [u8]) -> u32
    requires task { IsTask layout.now task.now }
    requires room { length out.old ≡ buffer_length }
    ensures reply { (p : PrivateTask) → IsParked layout.now task.now p → out.new ≡ splice 0 (set_reply p which.Xstate) out.old }
    ensures count { (p : PrivateTask) → IsParked layout.now task.now p → result ≡ length (set_reply p which.Xstate) }
    ensures len { length out.new ≡ length out.old }
{
    an_area_has_its_places();
    let Some(lease) = &task.lease else {
        unreachable!()
    };
    let size = layout.full_size();
    let all = layout.features();
    let shown = marks(layout, lease, task.pkru).0 & user_features(layout, lease.class).0;
    clear(out, 0, size as usize);
    standard_of(layout, &lease.area, task.pkru, all, out);
    put_number(out, 464, all.0);
    put_number(out, 512, shown);
    size
}

/// The Fx set: the standard bytes of x87 and SSE over 512 zeros.
fn get_fx(layout: &Layout, task: &Task, out: &mut [u8]) -> u32
    requires task { IsTask layout.now task.now }
    requires room { length out.old ≡ buffer_length }
    ensures reply { (p : PrivateTask) → IsParked layout.now task.now p → out.new ≡ splice 0 (set_reply p which.Fx) out.old }
    ensures count { (p : PrivateTask) → IsParked layout.now task.now p → result ≡ length (set_reply p which.Fx) }
    ensures len { length out.new ≡ length out.old }
{
    an_area_has_its_places();
    let Some(lease) = &task.lease else {
        unreachable!()
    };
    let legacy = Features(Features::X87.0 | Features::SSE.0);
    clear(out, 0, 512);
    standard_of(layout, &lease.area, task.pkru, legacy, out);
    512
}
