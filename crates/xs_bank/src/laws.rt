//! Laws of what a bank promises.

ghost use Rattle.std.specs.Prelude.{◌≡◌, ℕ, List, false};
ghost use Rattle.xs_base.specs.Area.{StandsFor};
ghost use Rattle.xs_base.specs.Component.{pkru_number};
ghost use Rattle.xs_base.specs.File.{File, AreSameButPkru};
ghost use Rattle.xs_base.specs.Sets.{has};
ghost use Rattle.xs_bank.specs.Bank.{Bank, IsReady};

/// An area that stands for the registers of a bank, PKRU aside, is ready for a save of any components but PKRU, whatever the
/// bank tracks. A call does nothing.
pub fn an_area_of_the_registers_is_ready()
    ensures { (bank : Bank) (file : File) (id mask : ℕ) (area : List ℕ) → StandsFor bank.file.rows area file → AreSameButPkru file bank.file → has mask pkru_number ≡ false → IsReady bank id mask area }
{}
