//! What holds of every generated text.

ghost use Rattle.std.specs.Prelude.{ℕ, ◌^◌, ◌<◌, ◌≤◌, length};
ghost use Rattle.xs_model.specs.declared.script.Script.{Script};
ghost use Rattle.xs_script.specs.declared.refusal.Kind.{Kind};
ghost use Rattle.xs_script.specs.Grammar.{Spells};
ghost use Rattle.xs_script.specs.Refusal.{Refuses};
ghost use Rattle.xs_gen.specs.Generated.{generated_text};

use xs_script::not_both;

/// The text of every number spells a script, and it's no longer than a script may be. A call does nothing.
pub fn every_number_has_a_script()
    ensures script { (number : ℕ) → number < 2 ^ 32 → (script : Script) × Spells (generated_text number) script }
    ensures length { (number : ℕ) → length (generated_text number) ≤ 1048576 }
{}

/// The text of no number is refused. A call does nothing.
pub fn no_number_is_refused()
    ensures { (number line : ℕ) (kind : Kind) → number < 2 ^ 32 → Refuses (generated_text number) line kind → ⊥ }
{
    every_number_has_a_script();
    not_both();
}
