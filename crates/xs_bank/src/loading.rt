//! Loads: what any bank takes of an area.

ghost use Rattle.std.specs.Prelude.{◌≡◌, ℕ, ◌+◌, ◌≤◌, true, length, slice_get, Some};
ghost use Rattle.xs_base.specs.declared.component.Row.{Row};
ghost use Rattle.xs_base.specs.Compact.{place};
ghost use Rattle.xs_bank.specs.Bank.{disarmed_file};
ghost use Rattle.xs_base.specs.Header as header;
ghost use Rattle.xs_base.specs.Layout.{IsSound, has_row};
ghost use Rattle.xs_bank.specs.Load as load;
ghost use Rattle.xs_bank.specs.Load.{IsLoaded};
ghost use Rattle.xs_base.specs.Sets.{has};
ghost use Rattle.xs_bank.specs.Rows.{IsRowLoaded};

use xs_area::{mxcsr, xcomp_bv, xstate_bv};
use xs_base::{Comp, Features, INITIAL_MXCSR, Row};
use xs_layout::Cursor;
use xs_regs::File;

/// Loads the components of the mask from an area in either format, and MXCSR as it is given. The area has the place of
/// each component of the mask that its XSTATE_BV names.
pub fn load(file: &mut File, mask: Features, area: &[u8], control: u32)
    requires header { 576 ≤ length area.now }
    requires places { (i : ℕ) (r : Row) → slice_get file.old.rows i ≡ Some r → has mask.0 r.comp.0 ≡ true → has (header.xstate_bv area.now) r.comp.0 ≡ true → place file.old.rows (header.xcomp_bv area.now) r + r.size ≤ length area.now }
    ensures { IsLoaded mask.0 area.now control file.old file.new }
{
    load_components(file, mask, area);
    file.set_mxcsr(control);
}

/// Loads the components of the mask. MXCSR stays.
fn load_components(file: &mut File, mask: Features, area: &[u8])
    requires header { 576 ≤ length area.now }
    requires places { (i : ℕ) (r : Row) → slice_get file.old.rows i ≡ Some r → has mask.0 r.comp.0 ≡ true → has (header.xstate_bv area.now) r.comp.0 ≡ true → place file.old.rows (header.xcomp_bv area.now) r + r.size ≤ length area.now }
    ensures { IsLoaded mask.0 area.now file.old.mxcsr file.old file.new }
{
    let bits = Features(xstate_bv(area));
    let mut cursor = Cursor::new(Features(xcomp_bv(area)));
    'each: for i in 0..file.layout().len() {
        let (row, at) = cursor.pass(file.layout(), i);
        if mask.has(row.comp) {
            load_row(file, bits, row, area, at);
        }
    }
}

/// Loads the component of a row of the machine from byte `at` of the area where it is of the bits, and makes it initial where
/// it isn't.
fn load_row(file: &mut File, bits: Features, row: Row, area: &[u8], at: usize)
    requires sound { IsSound row }
    requires there { has_row file.old.rows row.comp.0 ≡ true }
    requires held { has bits.0 row.comp.0 ≡ true → at + row.size ≤ length area.now }
    ensures { IsRowLoaded area.now bits.0 at row.comp.0 file.old file.new }
{
    if bits.has(row.comp) {
        file.load(row.comp, &area[at..at + row.size as usize]);
    } else {
        file.reset(row.comp);
    }
}

/// MXCSR after a load from the standard format (SDM volume 1, 13.8).
pub fn standard_control(mask: Features, area: &[u8], old: u32) -> u32
    requires { 576 ≤ length area.now }
    ensures { result ≡ load.standard_control mask.0 area.now old }
{
    if mask.has_control() { mxcsr(area) } else { old }
}

/// MXCSR after a load from the compacted format (SDM volume 1, 13.12).
pub fn compacted_control(mask: Features, area: &[u8], old: u32) -> u32
    requires { 576 ≤ length area.now }
    ensures { result ≡ load.compacted_control mask.0 area.now old }
{
    if !mask.has(Comp::SSE) {
        return old;
    }
    if Features(xstate_bv(area)).has(Comp::SSE) {
        mxcsr(area)
    } else {
        INITIAL_MXCSR
    }
}

/// Makes TILEDATA initial, where it is armed.
pub fn disarm(file: &mut File, armed: Features)
    ensures { file.new ≡ disarmed_file file.old armed.0 }
{
    if armed.has(Comp::TILEDATA) {
        file.reset(Comp::TILEDATA);
    }
}
