//! The text of a history is that of one history.

ghost use Rattle.std.specs.Prelude.{◌≡◌, List};
ghost use Rattle.xs_model.specs.declared.script.Script.{Script};
ghost use Rattle.xs_model.specs.declared.event.Event.{Event};
ghost use Rattle.xs_model.specs.Script.{IsValid};
ghost use Rattle.xs_model.specs.History.{IsLegal};
ghost use Rattle.xs_text.specs.Text.{AreEvents, history_text};

use xs_model::machine_known;

/// Each event of a legal history of a valid script has a spelling. A call does nothing.
pub fn a_legal_history_has_a_text()
    ensures { (script : Script) (history : List Event) → IsValid script → IsLegal script history → AreEvents script history }
{
    machine_known();
}

/// The text of a legal history is that of no other one: where each event of another history has a spelling, both have
/// the same events. A call does nothing.
pub fn one_history()
    ensures events { (script : Script) (a b : List Event) → IsValid script → AreEvents script a → AreEvents script b → history_text script a ≡ history_text script b → a ≡ b }
    ensures legal { (script : Script) (a b : List Event) → IsValid script → IsLegal script a → IsLegal script b → history_text script a ≡ history_text script b → a ≡ b }
{
    a_legal_history_has_a_text();
}
