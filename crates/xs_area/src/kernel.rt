//! The save areas that a kernel keeps for its tasks, before anything was saved in them.

ghost use Rattle.std.specs.Prelude.{◌≡◌, ℕ, ◌^◌, ◌<◌, ◌≤◌, ◌&&◌, ◌==◌, false, not, length, slice_index};
ghost use Rattle.xs_base.specs.Area.{StandsFor, HasPlaces};
ghost use Rattle.xs_base.specs.Bytes.{splice, is_within};
ghost use Rattle.xs_base.specs.Compact.{compacted};
ghost use Rattle.xs_base.specs.File.{initial_file};
ghost use Rattle.xs_base.specs.Header as header;
ghost use Rattle.xs_base.specs.KernelArea as kernel;
ghost use Rattle.xs_base.specs.KernelArea.{IsLoadable, is_of_class};
ghost use Rattle.xs_base.specs.Layout.{has_row};
ghost use Rattle.xs_base.specs.Sets.{has};

use xs_base::{Class, Comp, Features, clear, put_number};
use xs_layout::Layout;

/// The components that the areas of a class have a place for: the machine's without PKRU, and in Small ones without
/// TILEDATA.
pub fn class_features(layout: &Layout, class: Class) -> Features
    ensures bits { result.0 ≡ kernel.class_features layout.now class }
    ensures has { (c : ℕ) → has result.0 c ≡ (has_row layout.now c && is_of_class class c) }
{
    // The rows pass every test of a table.
    let _ = layout.len();
    match class {
        Class::Small => layout.default_features().with(Comp::PKRU, false),
        Class::Large => layout.features().with(Comp::PKRU, false),
    }
}

/// The bytes of a compacted area of a class, at least 576.
pub fn class_size(layout: &Layout, class: Class) -> u32
    ensures size { result ≡ kernel.class_size layout.now class }
    ensures low { 576 ≤ result }
{
    layout.compact_size(class_features(layout, class))
}

/// Makes an area of at least 576 bytes one of a class in the compacted format that has no state: every byte is zero but
/// for XCOMP_BV, bytes 520 to 527 (SDM volume 1, 13.4.2). So it stands for the initial file (SDM volume 1, 13.12), and can
/// be loaded where it has a number.
pub fn make_initial(layout: &Layout, class: Class, area: &mut [u8])
    requires { 576 ≤ length area.old }
    ensures zero { (k : ℕ) → is_within 520 8 k ≡ false → slice_index area.new k ≡ 0 }
    ensures len { length area.new ≡ length area.old }
    ensures names { header.xcomp_bv area.new ≡ compacted (kernel.class_features layout.now class) }
    ensures stands { StandsFor layout.now area.new (initial_file layout.now) }
    ensures loadable { (id : ℕ) → (id ≡ 0 → ⊥) → IsLoadable layout.now class id area.new }
    ensures places { kernel.class_size layout.now class ≤ length area.old → HasPlaces layout.now area.new (header.xcomp_bv area.new) }
{
    // The rows pass every test of a table.
    let _ = layout.len();
    let len = area.len();
    clear(area, 0, len);
    put_number(area, 520, compacted(class_features(layout, class)).0);
}

/// XCOMP_BV of a compacted area with a place for each of these components (SDM volume 1, 13.4.3).
pub fn compacted(set: Features) -> Features
    ensures { result.0 ≡ compacted set.0 }
{
    Features(0x8000_0000_0000_0000 | set.0)
}
