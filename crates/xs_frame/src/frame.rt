//! The bytes of a frame.

ghost use Rattle.std.specs.Prelude.{◌≡◌, ℕ, ◌≤◌, length};
ghost use Rattle.xs_base.specs.File.{File, IsFile, with_pkru};
ghost use Rattle.xs_base.specs.Frame.{frame_bytes};
ghost use Rattle.xs_base.specs.Sets.{has};
ghost use Rattle.xs_base.specs.Task.{frame_length};
ghost use Rattle.xs_task.specs.Marks.{IsSavedIn};
ghost use Rattle.xs_task.specs.TaskArea.{IsTaskArea};
ghost use Rattle.xs_image.specs.User.{user_features, user_size};
ghost use Rattle.xs_frame.specs.Named.{is_framed};

use xs_area::{Lease, standard_of, xstate_bv};
use xs_base::{Comp, Features, clear};
use xs_image::{put_words, user_features, user_size};
use xs_layout::Layout;
use xs_task::an_area_has_its_places;

/// A frame's XSTATE_BV, by the area that was saved and PKRU beside it: the components in use, and x87 and SSE always (Linux 6.6,
/// arch/x86/kernel/fpu/signal.c, save_xstate_epilog).
#[tactic(auto, using(xs_base::proofs::SetLemmas::has_and))]
fn frame_bits(area: &[u8], user: Features, pkru: u32) -> Features
    requires { 576 ≤ length area.now }
    ensures { (c : ℕ) → has result.0 c ≡ is_framed area.now user.0 pkru c }
{
    let named = Features(xstate_bv(area) & user.0);
    let own = user.has(Comp::PKRU) && pkru != 0;
    named
        .with(Comp::PKRU, own)
        .with(Comp::SSE, true)
        .with(Comp::X87, true)
}

/// Writes the frame of a task whose registers were saved in the area, with PKRU beside: the whole memory of the frame.
pub fn write_frame(layout: &Layout, lease: &Lease, pkru: u32, frame: &mut [u8])
    requires area { IsTaskArea layout.now lease.now }
    requires len { length frame.old ≡ frame_length }
    ensures len { length frame.new ≡ frame_length }
    ensures frame { (file : File) → IsFile file → IsSavedIn layout.now lease.now file → with_pkru file pkru ≡ file → frame.new ≡ frame_bytes file (user_features layout.now lease.now.class) (user_size layout.now lease.now.class) }
{
    // The rows pass every test of a table.
    let _ = layout.len();
    an_area_has_its_places();
    let user = user_features(layout, lease.class);
    let size = user_size(layout, lease.class);
    let len = frame.len();
    clear(frame, 0, len);
    standard_of(layout, &lease.area, pkru, user, frame);
    let bits = frame_bits(&lease.area.bytes, user, pkru);
    put_words(frame, user, size, bits);
}
