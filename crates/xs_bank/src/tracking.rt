//! The area that was loaded last, and what was changed since.

ghost use Rattle.std.specs.Prelude.{◌≡◌, ℕ, ◌≤◌, ◌<◌, ◌^◌, ◌&&◌, not, length, Some, []};
ghost use Rattle.xs_bank.specs.Bank as banks;
ghost use Rattle.xs_base.specs.Sets.{has};
ghost use Rattle.xs_bank.specs.Tracking.{shown};

use xs_area::xcomp_bv;
use xs_base::{Comp, Features};
use xs_layout::Layout;

/// The area that was loaded last, by its number and its XCOMP_BV, and the components that were changed since.
#[derive(Clone, Copy)]
pub struct LoadedArea {
    /// Its number.
    pub id: u64,
    /// Its XCOMP_BV.
    pub names: u64,
    /// The components that were changed since.
    pub modified: Features,
}

/// The set of one component.
pub fn only(comp: Comp) -> Features
    requires { comp.0 < 64 }
    ensures { result.0 ≡ 2 ^ comp.0 }
{
    Features(1 << comp.0)
}

/// The area that was loaded last, where these components change.
pub fn touch(tracked: Option<LoadedArea>, set: Features) -> Option<LoadedArea>
    ensures { shown result ≡ banks.touch set.0 (shown tracked) }
{
    let Some(loaded) = tracked else {
        return None;
    };
    Some(LoadedArea {
        id: loaded.id,
        names: loaded.names,
        modified: Features(loaded.modified.0 | set.0),
    })
}

/// This area after a load of the components of the mask: the machine's others count as changed.
pub fn track(layout: &Layout, id: u64, mask: Features, area: &[u8]) -> Option<LoadedArea>
    requires { 576 ≤ length area.now }
    ensures { shown result ≡ Some (banks.loaded_from layout.now id mask.0 area.now) }
{
    Some(LoadedArea {
        id,
        names: xcomp_bv(area),
        modified: others(layout, mask),
    })
}

/// The components of the machine outside the mask.
fn others(layout: &Layout, mask: Features) -> Features
    ensures { result.0 ≡ (banks.loaded_from layout.now 0 mask.0 []).modified }
{
    let all = layout.features().0;
    // The rows pass every test of a table.
    let _ = layout.len();
    Features(all & (all ^ mask.0))
}

/// The components of the set, but for those that weren't changed since the area of this number and XCOMP_BV was loaded.
pub fn changed_of(set: Features, tracked: Option<LoadedArea>, id: u64, names: u64) -> Features
    ensures { (c : ℕ) → has result.0 c ≡ (has set.0 c && not (banks.is_unmodified (shown tracked) id names c)) }
{
    let Some(loaded) = tracked else {
        return set;
    };
    if loaded.id != id || loaded.names != names {
        return set;
    }
    Features(set.0 & loaded.modified.0)
}
