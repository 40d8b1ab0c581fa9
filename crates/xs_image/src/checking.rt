//! Whether the bytes of a set may be taken.

ghost use Rattle.std.specs.Prelude.{◌≡◌, ℕ, ◌<◌, ◌≤◌, ◌^◌, length, Some, None, IfOk, MatchResult};
ghost use Rattle.xs_base.specs.declared.header.Origin.TheVariants.{Regset};
ghost use Rattle.xs_base.specs.declared.words.Set.TheVariants as which;
ghost use Rattle.xs_base.specs.Header as header;
ghost use Rattle.xs_base.specs.HeaderCheck.{header_error, parts_in};
ghost use Rattle.xs_base.specs.Layout.{full_size};
ghost use Rattle.xs_base.specs.KernelArea.{class_features};
ghost use Rattle.xs_base.specs.RegisterSet.{Accepted, after_set, set_result, set_error, set_errno};
ghost use Rattle.xs_base.specs.Task as tasks;
ghost use Rattle.xs_base.specs.Task.{PrivateTask};
ghost use Rattle.xs_base.specs.declared.class.Class.{Class};
ghost use Rattle.xs_image.specs.Answer.{refused_as};
ghost use Rattle.xs_image.specs.Parts.{AreOf};
ghost use Rattle.xs_image.specs.User.{user_features};

use xs_area::read_standard;
use xs_base::{Errno, Features, HeaderError, MOST_MXCSR, Origin, Parts};
use xs_layout::Layout;

/// Why the bytes of a set are refused, by the first test that they fail (Linux 6.6, arch/x86/kernel/fpu/regset.c,
/// xstateregs_set and xfpregs_set; that every other count is refused is this project's own).
#[derive(Clone, Copy, PartialEq, Eq, Debug)]
pub enum RegsetError {
    /// The bytes of the Xstate set aren't as many as the machine's standard format has.
    Fault,
    /// The bytes of the Fx set aren't 512.
    Count,
    /// The header or MXCSR.
    Header(HeaderError),
}

/// The error's number that a tracer is told: EFAULT for a wrong count of the Xstate set, and else EINVAL.
pub fn errno(error: RegsetError) -> Errno
    ensures { set_errno (refused_as error) ≡ Some result }
{
    match error {
        RegsetError::Fault => Errno::Fault,
        RegsetError::Count | RegsetError::Header(_) => Errno::Invalid,
    }
}

/// What the bytes of an Xstate set have for a task that may use these components, or why they are refused.
pub fn read_xstate(layout: &Layout, bytes: &[u8], user: Features) -> Result<Parts, RegsetError>
    ensures answer { (p : PrivateTask) → p.file.rows ≡ layout.now → tasks.user_features p ≡ user.0 → MatchResult result (λ _. set_result p which.Xstate bytes.now ≡ Accepted (after_set p which.Xstate bytes.now)) (λ e. set_result p which.Xstate bytes.now ≡ refused_as e) }
    ensures passed { IfOk result (λ _. header_error Regset user.0 bytes.now ≡ None) }
    ensures count { IfOk result (λ _. length bytes.now ≡ full_size layout.now) }
    ensures parts { IfOk result (λ parts. parts ≡ parts_in layout.now Regset bytes.now) }
    ensures small { IfOk result (λ parts. parts.pkru < 2 ^ 32) }
    ensures room { (class : Class) → user.0 ≡ user_features layout.now class → IfOk result (λ parts. AreOf parts (class_features layout.now class)) }
{
    // The rows pass every test of a table.
    let _ = layout.len();
    if bytes.len() != layout.full_size() as usize {
        return Err(RegsetError::Fault);
    }
    match read_standard(layout, bytes, user, Origin::Regset) {
        Ok(parts) => Ok(parts),
        Err(error) => Err(RegsetError::Header(error)),
    }
}

/// MXCSR of the bytes of an Fx set, or why they are refused.
pub fn read_fx(bytes: &[u8]) -> Result<u32, RegsetError>
    ensures answer { (p : PrivateTask) → MatchResult result (λ _. set_result p which.Fx bytes.now ≡ Accepted (after_set p which.Fx bytes.now)) (λ e. set_result p which.Fx bytes.now ≡ refused_as e) }
    ensures passed { (p : PrivateTask) → IfOk result (λ _. set_error p which.Fx bytes.now ≡ None) }
    ensures count { IfOk result (λ _. length bytes.now ≡ 512) }
    ensures control { IfOk result (λ control. control ≡ header.mxcsr bytes.now) }
    ensures small { IfOk result (λ control. control < 2 ^ 16) }
{
    if bytes.len() != 512 {
        return Err(RegsetError::Count);
    }
    let control = mxcsr(bytes);
    if control > MOST_MXCSR {
        return Err(RegsetError::Header(HeaderError::Mxcsr));
    }
    Ok(control)
}

/// MXCSR, bytes 24 to 27 (SDM volume 1, 10.5.1).
#[tactic(auto, unfolding(xs_base::specs::Header::mxcsr))]
fn mxcsr(bytes: &[u8]) -> u32
    requires { 28 ≤ length bytes.now }
    ensures { result ≡ header.mxcsr bytes.now }
{
    let mut word = [0; 4];
    word.copy_from_slice(&bytes[24..28]);
    u32::from_le_bytes(word)
}
