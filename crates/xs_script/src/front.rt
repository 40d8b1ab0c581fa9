//! The first line of a text.

ghost use Rattle.std.specs.Prelude.{◌≡◌, ◌<◌, [], false, length, IfOk, IfErr};
ghost use Rattle.xs_script.specs.LineOrder.{Stand, takes_sched, may_end};
ghost use Rattle.xs_script.specs.Refusal.{LineFails};
ghost use Rattle.xs_script.specs.Front.{IsNext};

use crate::line::Line;
use crate::line_reader::next_line;
use crate::refusal::Kind;

/// The first line of the text, and the text after it; or what that line is refused with wherever it stands, but where a
/// schedule may. An empty text has no line: it is for the caller to know that a text may not end here.
pub(crate) fn first_line(text: &[u8]) -> Result<(Line, &[u8]), Kind>
    ensures line { IfOk result (λ x. IsNext text.now x.0 x.1.now) }
    ensures shorter { IfOk result (λ x. length x.1.now < length text.now) }
    ensures refused { IfErr result (λ kind. (stand : Stand) → takes_sched stand ≡ false → (text.now ≡ [] → may_end stand ≡ false) → LineFails stand text.now kind) }
{
    match next_line(text) {
        Some(first) => Ok(first),
        None => Err(Kind::BadLine),
    }
}
