//! The other lines of the tiles.

ghost use Rattle.std.specs.Prelude.{◌≡◌, ℕ, List, Some};
ghost use Rattle.xs_base.specs.Task.{PrivateTask};
ghost use Rattle.xs_base.specs.Tile.{feature_error, released_file};
ghost use Rattle.xs_bank.specs.Bank.{IsReady, counts_of};
ghost use Rattle.xs_bank.specs.SetUp.{WasSetUp};
ghost use Rattle.xs_model.specs.declared.event.Reply.TheVariants as replies;
ghost use Rattle.xs_model.specs.declared.script.Command.TheVariants as commands;
ghost use Rattle.xs_model.specs.declared.script.Script.{Script};
ghost use Rattle.xs_model.specs.Counts.{exec_of, numbers_of};
ghost use Rattle.xs_model.specs.Line.{asked, count_or_error};
ghost use Rattle.xs_task.specs.Private.{HasForm};

use xs_bank::{Bank, Cpu};
use xs_base::Comp;
use xs_layout::Layout;
use xs_model::Reply;
use xs_task::Task;
use xs_tile::request;

/// Releases the tiles of the bank. On a machine without tiles it does nothing, and isn't counted.
pub fn release<B: Bank>(cpu: &mut Cpu<B>)
    requires set_up { WasSetUp cpu.old.layout (B.state cpu.old.bank) cpu.old.initial }
    ensures cpu { cpu.new ≡ record cpu.old { bank = cpu.new.bank } }
    ensures file { (B.state cpu.new.bank).file ≡ released_file (B.state cpu.old.bank).file }
    ensures armed { (B.state cpu.new.bank).armed ≡ (B.state cpu.old.bank).armed }
    ensures counts { (script : Script) → script.layout ≡ cpu.old.layout → counts_of (B.state cpu.new.bank) ≡ exec_of (numbers_of script (Some commands.Tilerelease) replies.Done) (counts_of (B.state cpu.old.bank)) }
    ensures ready { (id m : ℕ) (area : List ℕ) → IsReady (B.state cpu.old.bank) id m area → IsReady (B.state cpu.new.bank) id m area }
{
    // The bank has a file of its machine.
    let _ = cpu.bank.loads();
    if cpu.layout.has_row(Comp::TILEDATA) {
        cpu.bank.tile_release();
    }
}

/// A request for leave, and its reply.
pub fn ask(layout: &Layout, task: &mut Task, feature: u32) -> Reply
    ensures reply { result ≡ count_or_error 0 (feature_error layout.now feature) }
    ensures form { (p : PrivateTask) → HasForm task.old p → HasForm task.new (asked (feature_error layout.now feature) p) }
    ensures rest { task.new ≡ record task.old { permitted = task.new.permitted } }
{
    match request(layout, task, feature) {
        Ok(()) => Reply::Count(0),
        Err(error) => Reply::Error(error as u32),
    }
}
