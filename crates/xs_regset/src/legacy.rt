//! The legacy registers of a task, in its area.

ghost use Rattle.std.specs.Prelude.{◌≡◌, ℕ, ◌<◌, ◌≤◌, ◌^◌, ◌||◌, ◌==◌, length};
ghost use Rattle.xs_base.specs.Area.{StandsFor};
ghost use Rattle.xs_base.specs.Component.{x87_number, sse_number};
ghost use Rattle.xs_base.specs.File.{File, IsFile};
ghost use Rattle.xs_base.specs.Header.{xcomp_bv, mxcsr};
ghost use Rattle.xs_base.specs.RegisterSet.{fx_file};
ghost use Rattle.xs_task.specs.Marks.{is_marked_in};
ghost use Rattle.xs_task.specs.TaskArea.{IsTaskArea};
ghost use Rattle.xs_regset.specs.Legacy.{HasLegacy};

use xs_area::{Lease, xstate_bv};
use xs_base::{Comp, Features, put_component, put_control, put_number};
use xs_layout::Layout;
use xs_task::an_area_has_its_places;

/// Gives a task's area x87, the XMM registers and MXCSR of the 512 bytes of an Fx set, and keeps its other registers. Its class,
/// its number and its XCOMP_BV stay. What was marked in it stays so, and x87 and SSE are.
pub fn put_legacy(layout: &Layout, bytes: &[u8], control: u32, lease: &mut Lease)
    requires area { IsTaskArea layout.now lease.old }
    requires count { length bytes.now ≡ 512 }
    requires control { control ≡ mxcsr bytes.now }
    requires small { control < 2 ^ 16 }
    ensures area { IsTaskArea layout.now lease.new }
    ensures class { lease.new.class ≡ lease.old.class }
    ensures id { lease.new.area.id ≡ lease.old.area.id }
    ensures form { xcomp_bv lease.new.area.bytes.items ≡ xcomp_bv lease.old.area.bytes.items }
    ensures stands { (file : File) → IsFile file → StandsFor layout.now lease.old.area.bytes.items file → StandsFor layout.now lease.new.area.bytes.items (fx_file file bytes.now) }
    ensures marks { (c : ℕ) → is_marked_in lease.new.area.bytes.items c ≡ (is_marked_in lease.old.area.bytes.items c || (c == x87_number) || (c == sse_number)) }
{
    an_area_has_its_places();
    put_registers(&mut lease.area.bytes, bytes, control);
}

/// Writes x87 and the XMM registers of the bytes to their places, which are those of both formats, and MXCSR, and names both in
/// XSTATE_BV (SDM volume 1, 13.4.1).
fn put_registers(area: &mut [u8], bytes: &[u8], control: u32)
    requires header { 576 ≤ length area.old }
    requires count { length bytes.now ≡ 512 }
    ensures { HasLegacy bytes.now control area.old area.new }
{
    let bits = Features(xstate_bv(area))
        .with(Comp::X87, true)
        .with(Comp::SSE, true);
    put_component(area, 0, Comp::X87, &bytes[0..160]);
    put_component(area, 160, Comp::SSE, &bytes[160..416]);
    put_control(area, control);
    put_number(area, 512, bits.0);
}
