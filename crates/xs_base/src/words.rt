//! The small types that scripts, events and answers share.

ghost use Rattle.std.specs.Prelude.{◌≡◌, ◌≤◌, IfSome, IfNone};

/// A signal by its number, 1 to 31.
#[derive(Clone, Copy, PartialEq, Eq, Debug)]
pub struct Signo {
    /// The number.
    pub number: u8,
    pub ghost in_range: { (1 ≤ number) × (number ≤ 31) },
}

impl Signo {
    /// The signal of this number, if there is one.
    pub fn new(number: u8) -> Option<Signo>
        ensures number { IfSome result (λ signo. signo.number ≡ number) }
        ensures none { IfNone result ((1 ≤ number) × (number ≤ 31) → ⊥) }
    {
        if number >= 1 && number <= 31 {
            Some(Signo { number })
        } else {
            None
        }
    }
}

/// An error's number in Linux (`errno-base.h`, `errno.h`): ESRCH, EFAULT, EINVAL, EOPNOTSUPP.
#[derive(Clone, Copy, PartialEq, Eq, Debug)]
pub enum Errno {
    /// No such process.
    Srch = 3,
    /// A bad address.
    Fault = 14,
    /// An invalid argument.
    Invalid = 22,
    /// Not supported.
    NotSupported = 95,
}

/// How a task's registers come at the start of a turn: restored from its save area, left as the bank still has
/// them, or none, for a kernel thread.
#[derive(Clone, Copy, PartialEq, Eq, Debug)]
pub enum How {
    /// They are restored.
    Load,
    /// The bank still has them.
    Skip,
    /// A kernel thread has none.
    Kern,
}

/// A register set of ptrace: NT_X86_XSTATE or NT_PRFPREG.
#[derive(Clone, Copy, PartialEq, Eq, Debug)]
pub enum Set {
    /// Every component, in the standard format.
    Xstate,
    /// x87 and SSE, in the format of FXSAVE.
    Fx,
}
