//! A task's area that comes to stand for what an image in the standard format has.

ghost use Rattle.std.specs.Prelude.{◌≡◌, ℕ, ◌<◌, ◌≤◌, ◌^◌, true, not, ◌&&◌, ◌||◌, ◌==◌, length};
ghost use Rattle.xs_base.specs.Area.{StandsFor};
ghost use Rattle.xs_base.specs.Component.{pkru_number, sse_number, initial_mxcsr};
ghost use Rattle.xs_base.specs.File.{initial_file};
ghost use Rattle.xs_base.specs.Header.{xcomp_bv};
ghost use Rattle.xs_base.specs.Image.{image_file};
ghost use Rattle.xs_base.specs.KernelArea.{class_features};
ghost use Rattle.xs_base.specs.Layout.{full_size};
ghost use Rattle.xs_base.specs.Sets.{has};
ghost use Rattle.xs_task.specs.Marks.{is_marked_in};
ghost use Rattle.xs_task.specs.TaskArea.{IsTaskArea};

use xs_area::{Lease, compact_of};
use xs_base::Parts;
use xs_layout::Layout;

/// Makes a task's area stand for what an image in the standard format has: the components of the bits come from `bytes`, what the
/// bits don't name is initial, and MXCSR is that of the parts. PKRU is the task's, beside the area. Its class, its number and its
/// XCOMP_BV stay; the components of the bits are marked in it, and SSE also where MXCSR isn't initial. `bytes` has at least
/// `full_size` bytes, and the class has each component of the bits but PKRU.
pub fn put_parts(layout: &Layout, bytes: &[u8], parts: &Parts, lease: &mut Lease)
    requires area { IsTaskArea layout.now lease.old }
    requires small { parts.now.mxcsr < 2 ^ 16 }
    requires bits { (c : ℕ) → (c ≡ pkru_number → ⊥) → has parts.now.bits.0 c ≡ true → has (class_features layout.now lease.old.class) c ≡ true }
    requires places { full_size layout.now ≤ length bytes.now }
    ensures area { IsTaskArea layout.now lease.new }
    ensures class { lease.new.class ≡ lease.old.class }
    ensures id { lease.new.area.id ≡ lease.old.area.id }
    ensures form { xcomp_bv lease.new.area.bytes.items ≡ xcomp_bv lease.old.area.bytes.items }
    ensures stands { StandsFor layout.now lease.new.area.bytes.items (image_file (initial_file layout.now) bytes.now parts.now) }
    ensures marks { (c : ℕ) → is_marked_in lease.new.area.bytes.items c ≡ ((has parts.now.bits.0 c && has (class_features layout.now lease.old.class) c) || ((c == sse_number) && not (parts.now.mxcsr == initial_mxcsr))) }
{
    compact_of(layout, bytes, parts, &mut lease.area);
}
