//! The components that are shown as saved.

ghost use Rattle.std.specs.Prelude.{◌≡◌, Some};
ghost use Rattle.xs_task.specs.Marks.{marks_of};
ghost use Rattle.xs_task.specs.TaskArea.{IsTaskArea};

use xs_area::{Lease, xstate_bv};
use xs_base::{Comp, Features};
use xs_layout::Layout;
use xs_task::an_area_has_its_places;

/// The marks of a parked task with this area and this PKRU. In a compacted area MXCSR is initial where SSE isn't named, so that
/// XSTATE_BV has the marks but for PKRU.
pub fn marks(layout: &Layout, lease: &Lease, pkru: u32) -> Features
    requires { IsTaskArea layout.now lease.now }
    ensures { result.0 ≡ marks_of (Some lease.now) pkru }
{
    an_area_has_its_places();
    Features(xstate_bv(&lease.area.bytes)).with(Comp::PKRU, pkru != 0)
}
