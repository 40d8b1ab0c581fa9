//! What a frame has for a return.

ghost use Rattle.std.specs.Prelude.{◌≡◌, ◌<◌, ◌≤◌, ◌^◌, length, IfOk, MatchResult, Some, None};
ghost use Rattle.xs_base.specs.declared.class.Class.{Class};
ghost use Rattle.xs_base.specs.Frame as frames;
ghost use Rattle.xs_base.specs.KernelArea.{class_features};
ghost use Rattle.xs_base.specs.Layout.{most_bytes};
ghost use Rattle.xs_base.specs.Task as tasks;
ghost use Rattle.xs_base.specs.Task.{PrivateTask, frame_length};
ghost use Rattle.xs_image.specs.Parts.{AreOf};
ghost use Rattle.xs_image.specs.Restored.{is_legacy, IsImage};
ghost use Rattle.xs_image.specs.User.{user_features};

use crate::words::{MAGIC1, MAGIC2, word_at, xfeatures};
use xs_area::{mxcsr, read_standard};
use xs_base::{Features, HeaderError, MOST_MXCSR, Origin, Parts};
use xs_layout::Layout;

/// What a return took of a frame.
#[derive(Clone, Copy, PartialEq, Eq, Debug)]
pub enum Restored {
    /// The whole frame.
    Full,
    /// x87, XMM and MXCSR alone.
    LegacyOnly,
}

/// What a frame has.
#[derive(Clone, Copy, PartialEq, Eq, Debug)]
pub struct Image {
    /// What is taken of it.
    pub restored: Restored,
    /// The components, MXCSR and PKRU.
    pub parts: Parts,
}

/// Whether x87 and SSE alone are taken of the frame: a magic word is wrong, or its size is out of bounds (Linux 6.6,
/// arch/x86/kernel/fpu/signal.c, check_xstate_in_sigframe).
fn is_legacy_only(frame: &[u8], size: u32) -> bool
    requires len { length frame.now ≡ frame_length }
    requires high { size ≤ most_bytes }
    ensures { result ≡ frames.is_legacy_only size frame.now }
{
    let extended = word_at(frame, 468);
    let xstate = word_at(frame, 480);
    word_at(frame, 464) != MAGIC1
        || xstate < 576
        || xstate > size
        || xstate > extended
        || word_at(frame, xstate as usize) != MAGIC2
}

/// What the frame has for a task with these user features and this user size, or the first test that it fails.
#[tactic(auto, using(xs_base::proofs::SizeLemmas::end_most))]
pub fn read_frame(
    layout: &Layout,
    frame: &[u8],
    user: Features,
    size: u32,
) -> Result<Image, HeaderError>
    requires len { length frame.now ≡ frame_length }
    requires high { size ≤ most_bytes }
    ensures error { MatchResult result (λ _. frames.frame_error user.0 size frame.now ≡ None) (λ e. frames.frame_error user.0 size frame.now ≡ Some e) }
    ensures parts { IfOk result (λ image. image.parts ≡ frames.frame_parts layout.now user.0 size frame.now) }
    ensures restored { IfOk result (λ image. is_legacy image.restored ≡ frames.is_legacy_only size frame.now) }
    ensures image { (p : PrivateTask) → p.file.rows ≡ layout.now → tasks.user_features p ≡ user.0 → tasks.user_size p ≡ size → p.frame ≡ frame.now → MatchResult result (λ image. IsImage p image) (λ e. frames.return_of p ≡ frames.Refused e) }
    ensures small { IfOk result (λ image. image.parts.mxcsr < 2 ^ 16) }
    ensures room { (class : Class) → user.0 ≡ user_features layout.now class → IfOk result (λ image. AreOf image.parts (class_features layout.now class)) }
{
    // The rows pass every test of a table.
    let _ = layout.len();
    if is_legacy_only(frame, size) {
        let control = mxcsr(frame);
        if control > MOST_MXCSR {
            return Err(HeaderError::Mxcsr);
        }
        return Ok(Image {
            restored: Restored::LegacyOnly,
            parts: legacy_parts(control),
        });
    }
    let wanted = Features(xfeatures(frame) & user.0);
    match read_standard(layout, frame, user, Origin::Frame(wanted)) {
        Ok(parts) => Ok(Image {
            restored: Restored::Full,
            parts,
        }),
        Err(error) => Err(error),
    }
}

/// The parts of a frame of which x87 and SSE alone are taken.
fn legacy_parts(control: u32) -> Parts
    ensures bits { result.bits.0 ≡ frames.legacy_features }
    ensures mxcsr { result.mxcsr ≡ control }
    ensures pkru { result.pkru ≡ 0 }
{
    Parts {
        bits: Features(Features::X87.0 | Features::SSE.0),
        mxcsr: control,
        pkru: 0,
    }
}
