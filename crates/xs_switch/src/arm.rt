//! What XFD is armed for.

ghost use Rattle.std.specs.Prelude.{◌≡◌, ◌⊎◌, true};
ghost use Rattle.xs_base.specs.Component.{pkru_number, tiledata_number};
ghost use Rattle.xs_base.specs.File.{part};
ghost use Rattle.xs_base.specs.Layout.{has_row};
ghost use Rattle.xs_bank.specs.Bank.{counts_of};
ghost use Rattle.xs_bank.specs.Load.{tiles};
ghost use Rattle.xs_switch.specs.Armed as armed;

use xs_bank::Bank;
use xs_base::{Class, Comp, Features};
use xs_layout::Layout;

/// The components that trap while a task with an area of the class runs: TILEDATA, where the machine has it and the area has
/// no room for it.
fn armed_for(layout: &Layout, class: Class) -> Features
    ensures armed { result.0 ≡ armed.armed_for layout.now class }
    ensures known { (result.0 ≡ 0) ⊎ ((result.0 ≡ tiles) × (has_row layout.now tiledata_number ≡ true)) }
{
    match class {
        Class::Large => Features(0),
        Class::Small => {
            if layout.has_row(Comp::TILEDATA) {
                Features::TILEDATA
            } else {
                Features(0)
            }
        }
    }
}

/// Arms XFD for a task with an area of the class.
#[tactic(auto, using(crate::proofs::AreaLemmas::disarmed_rows, crate::proofs::AreaLemmas::disarmed_pkru))]
pub fn arm<B: Bank>(bank: &mut B, layout: &Layout, class: Class)
    requires { (B.state bank.old).file.rows ≡ layout.now }
    ensures machine { (B.state bank.new).file.rows ≡ layout.now }
    ensures pkru { part (B.state bank.new).file pkru_number ≡ part (B.state bank.old).file pkru_number }
    ensures armed { (B.state bank.new).armed ≡ armed.armed_for layout.now class }
    ensures counts { counts_of (B.state bank.new) ≡ counts_of (B.state bank.old) }
{
    bank.set_xfd(armed_for(layout, class));
}
