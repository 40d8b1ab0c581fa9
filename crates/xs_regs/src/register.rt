//! The registers of a machine by their names.

ghost use Rattle.std.specs.Prelude.{◌≡◌, ℕ, ◌+◌, ◌<◌, ◌≤◌, false, List, ◌∷◌, ◌++◌, length, map, codes, MatchOption, IfSome};
ghost use Rattle.xs_base.specs.declared.component.Place.{Place};
ghost use Rattle.xs_base.specs.declared.component.Row.{Row};
ghost use Rattle.xs_base.specs.Component.{component_size};
ghost use Rattle.xs_base.specs.File.{is_mxcsr};
ghost use Rattle.xs_base.specs.Register.{IsMember, IsTileRow, IsNamed, IsRegister, singles, families};
ghost use Rattle.xs_regs.specs.Finds.{Finds};
ghost use Rattle.std.specs.List.{AllByRecursion};
ghost use Rattle.xs_regs.specs.Names.{HasTwoDigits, IsAlone, IsNumbered, single_of, family_of};

use crate::number::{read_digit, read_index};
use crate::tables::{FAMILIES, Family, SINGLES, Single};
use xs_base::{Comp, Place, after};
use xs_layout::Layout;

/// The place of the register with this name; None exactly where the machine has no such register.
pub fn place_of(name: &str, layout: &Layout) -> Option<Place>
    ensures register { MatchOption result ((place : Place) → IsRegister layout.now name.now place → ⊥) (IsRegister layout.now name.now) }
    ensures sizes { IfSome result (λ place. (0 < place.len) × (place.len ≤ 64) × (length name.now ≤ 16)) }
    ensures within { IfSome result (λ place. is_mxcsr place ≡ false → place.offset + place.len ≤ component_size place.comp.0) }
{
    place_of_bytes(name.as_bytes(), layout)
}

/// `place_of` for a name that is bytes.
pub fn place_of_bytes(name: &[u8], layout: &Layout) -> Option<Place>
    ensures register { MatchOption result ((place : Place) → IsRegister layout.now name.now place → ⊥) (IsRegister layout.now name.now) }
    ensures sizes { IfSome result (λ place. (0 < place.len) × (place.len ≤ 64) × (length name.now ≤ 16)) }
    ensures within { IfSome result (λ place. is_mxcsr place ≡ false → place.offset + place.len ≤ component_size place.comp.0) }
{
    let place = find_named(name)?;
    if layout.has_row(place.comp) {
        Some(place)
    } else {
        None
    }
}

/// A name is that of one place, on every machine that has the register. A call does nothing.
pub fn one_place()
    ensures { (name : List ℕ) (rows others : List Row) (p q : Place) → IsRegister rows name p → IsRegister others name q → p ≡ q }
{}

/// The place of the register that has this name of its own.
fn find_alone(entries: &[Single], name: &[u8]) -> Option<Place>
    ensures { Finds (IsAlone (map single_of entries.now) name.now) result }
{
    'each: for single in entries {
        if *single.name == *name {
            return Some(single.place);
        }
    }
    None
}

/// The place of the register with this name, if it is one of the family.
fn find_member(family: &Family, name: &[u8]) -> Option<Place>
    requires { HasTwoDigits family.now }
    ensures { Finds (λ (place : Place). IsMember name.now place (family_of family.now)) result }
{
    let digits = after(family.stem, name)?;
    let number = read_index(digits)?;
    let from = u32::from(family.from);
    let count = u32::from(family.count);
    let stride = u32::from(family.stride);
    if from <= number && number - from < count {
        Some(Place {
            comp: Comp(family.component),
            offset: u32::from(family.offset) + stride * (number - from),
            len: u32::from(family.len),
        })
    } else {
        None
    }
}

/// The place of the register whose name is a stem of these and a number.
fn find_numbered(entries: &[Family], name: &[u8]) -> Option<Place>
    requires { AllByRecursion HasTwoDigits entries.now }
    ensures { Finds (IsNumbered (map family_of entries.now) name.now) result }
{
    'each: for family in entries {
        if let Some(place) = find_member(family, name) {
            return Some(place);
        }
    }
    None
}

/// The place of the row of a tile with this name.
fn find_tile_row(name: &[u8]) -> Option<Place>
    ensures { Finds (IsTileRow name.now) result }
{
    let numbers = after(b"tmm", name)?;
    match *numbers {
        [tile, b'.', ref row @ ..] => tile_row(tile, row),
        _ => None,
    }
}

/// The place of a tile's row by its two numbers.
fn tile_row(tile: u8, row: &[u8]) -> Option<Place>
    ensures { Finds (IsTileRow (codes "tmm" ++ tile ∷ codes "." ++ row.now)) result }
{
    let tile = read_digit(tile)?;
    let row = read_index(row)?;
    if tile < 8 && row < 16 {
        Some(Place {
            comp: Comp::TILEDATA,
            offset: 1024 * tile + 64 * row,
            len: 64,
        })
    } else {
        None
    }
}

/// The place of the register with this name, of any machine.
fn find_named(name: &[u8]) -> Option<Place>
    ensures { Finds (IsNamed name.now) result }
{
    if let Some(place) = find_numbered(&FAMILIES, name) {
        return Some(place);
    }
    if let Some(place) = find_alone(&SINGLES, name) {
        return Some(place);
    }
    find_tile_row(name)
}
