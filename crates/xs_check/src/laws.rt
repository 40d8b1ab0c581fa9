//! The laws of a verdict, for proofs: a caller has them by calling their function, which does nothing.

ghost use Rattle.std.specs.Prelude.{◌≡◌, ℕ, List};
ghost use Rattle.xs_model.specs.declared.script.Script.{Script};
ghost use Rattle.xs_outside.specs.declared.status.Status.{Status};
ghost use Rattle.xs_outside.specs.declared.status.Status.TheVariants as statuses;
ghost use Rattle.xs_script.specs.Grammar.{Spells};
ghost use Rattle.xs_check.specs.Verdict.{HasParts, IsVerdict};

use xs_script::{not_both, one_refusal, one_script};
use xs_text::{not_both as not_both_texts, one_bad_line, one_history};

/// An input has one verdict.
pub fn one_verdict()
    ensures { (input one other : List ℕ) (status right : Status) → IsVerdict input status one → IsVerdict input right other → (status ≡ right) × (one ≡ other) }
{
    one_script();
    one_refusal();
    not_both();
    one_history();
    one_bad_line();
    not_both_texts();
}

/// An input isn't refused where neither it nor its script's text is too long, and that text spells a script.
pub fn no_refusal()
    ensures { (input script_text text line : List ℕ) (script : Script) (status : Status) → HasParts input script_text text → Spells script_text script → IsVerdict input status line → status ≡ statuses.Refused → ⊥ }
{
    not_both();
}
