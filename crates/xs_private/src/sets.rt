//! Register sets: what a tracer is given of a task's registers, and what its bytes leave of the task.

ghost use Rattle.std.specs.Prelude.{◌≡◌, ℕ, ◌≤◌, List, None, length, take, IfOk, MatchOption, MatchResult};
ghost use Rattle.xs_base.specs.declared.header.Origin.TheVariants.{Regset};
ghost use Rattle.xs_base.specs.declared.component.Row.{Row};
ghost use Rattle.xs_base.specs.declared.words.Set.TheVariants as which;
ghost use Rattle.xs_base.specs.Bytes.{splice};
ghost use Rattle.xs_base.specs.Component.{component_numbers};
ghost use Rattle.xs_base.specs.HeaderCheck.{parts_in};
ghost use Rattle.xs_base.specs.Layout.{full_size, set_of};
ghost use Rattle.xs_base.specs.RegisterSet.{Accepted, after_set, is_added, is_given, set_errno, set_reply, set_result};
ghost use Rattle.xs_base.specs.Sets.{has};
ghost use Rattle.xs_base.specs.Task.{IsPrivateTask, buffer_length, mark_by};
ghost use Rattle.xs_image.specs.Answer.{refused_as};

use crate::file::user_of;
use crate::image::{take_image, take_legacy};
use crate::private::Private;
use xs_base::{Comp, Errno, Features, INITIAL_MXCSR, Parts, Set, clear, put_number};
use xs_image::{RegsetError, errno, read_fx, read_xstate};
use xs_regs::File;

/// x87 and SSE, the components of an Fx set.
const LEGACY: Features = Features(Features::X87.0 | Features::SSE.0);

/// Every component that a machine may have.
const KNOWN: u64 = Features::X87.0
    | Features::SSE.0
    | Features::AVX.0
    | Features::OPMASK.0
    | Features::ZMM_HI256.0
    | Features::HI16_ZMM.0
    | Features::PKRU.0
    | Features::TILECFG.0
    | Features::TILEDATA.0;

/// The bytes of an Fx set.
const FX_LEN: u32 = 512;

impl Private {
    /// How many bytes a register set has (Linux 6.6, arch/x86/kernel/fpu/regset.c, xstateregs_get and xfpregs_get).
    pub fn set_len(&self, set: Set) -> u32
        ensures { result ≡ length (set_reply self.now set) }
    {
        match set {
            Set::Xstate => self.file.layout().full_size(),
            Set::Fx => FX_LEN,
        }
    }

    /// Writes a register set to the front of a tracer's buffer. What is behind it stays.
    pub fn read_set(&self, set: Set, tracer: &mut Private)
        requires valid { (rows : List Row) × IsPrivateTask rows self.now × IsPrivateTask rows tracer.old }
        ensures { tracer.new ≡ record tracer.old { buffer = splice 0 (set_reply self.now set) tracer.old.buffer } }
    {
        match set {
            Set::Xstate => self.put_xstate(&mut tracer.buffer),
            Set::Fx => self.put_fx(&mut tracer.buffer),
        }
    }

    /// The Xstate set: the standard bytes of every component over zeros, and the machine's features and the marks in them.
    fn put_xstate(&self, out: &mut [u8])
        requires room { length out.old ≡ buffer_length }
        ensures { out.new ≡ splice 0 (set_reply self.now which.Xstate) out.old }
    {
        let layout = self.file.layout();
        let all = layout.features();
        let shown = self.marks.0 & user_of(layout, self.large).0;
        clear(out, 0, layout.full_size() as usize);
        self.file.standard_into(all, out);
        put_number(out, 464, all.0);
        put_number(out, 512, shown);
    }

    /// The Fx set: the standard bytes of x87 and SSE over zeros.
    fn put_fx(&self, out: &mut [u8])
        requires room { length out.old ≡ buffer_length }
        ensures { out.new ≡ splice 0 (set_reply self.now which.Fx) out.old }
    {
        // The file is one of the machine.
        let _ = self.file.layout();
        clear(out, 0, FX_LEN as usize);
        self.file.standard_into(LEGACY, out);
    }

    /// Why a register set is refused that a tracer gives as so many first bytes of its buffer: EFAULT for a wrong count of the
    /// Xstate set, and EINVAL for any other test that the bytes fail. A set that is taken has none.
    pub fn set_error(&self, set: Set, count: u32, tracer: &Private) -> Option<Errno>
        requires valid { (rows : List Row) × IsPrivateTask rows self.now × IsPrivateTask rows tracer.now }
        requires within { count ≤ buffer_length }
        ensures { result ≡ set_errno (set_result self.now set (take count tracer.now.buffer)) }
    {
        let error = self.refusal(set, &tracer.buffer[..count as usize])?;
        Some(errno(error))
    }

    /// The first test that the bytes of a register set fail.
    fn refusal(&self, set: Set, bytes: &[u8]) -> Option<RegsetError>
        ensures { MatchOption result (set_errno (set_result self.now set bytes.now) ≡ None) (λ e. set_result self.now set bytes.now ≡ refused_as e) }
    {
        match set {
            Set::Xstate => self.read_xstate(bytes).err(),
            Set::Fx => read_fx(bytes).err(),
        }
    }

    /// What the bytes of an Xstate set have for the task, or why they are refused.
    fn read_xstate(&self, bytes: &[u8]) -> Result<Parts, RegsetError>
        ensures answer { MatchResult result (λ _. set_result self.now which.Xstate bytes.now ≡ Accepted (after_set self.now which.Xstate bytes.now)) (λ e. set_result self.now which.Xstate bytes.now ≡ refused_as e) }
        ensures count { IfOk result (λ _. length bytes.now ≡ full_size self.now.file.rows) }
        ensures parts { IfOk result (λ parts. parts ≡ parts_in self.now.file.rows Regset bytes.now) }
    {
        let layout = self.file.layout();
        read_xstate(layout, bytes, user_of(layout, self.large))
    }

    /// Takes a register set that isn't refused (Linux 6.6, arch/x86/kernel/fpu/regset.c, xstateregs_set and xfpregs_set).
    pub fn write_set(&mut self, set: Set, count: u32, tracer: &Private)
        requires valid { (rows : List Row) × IsPrivateTask rows self.old × IsPrivateTask rows tracer.now }
        requires within { count ≤ buffer_length }
        requires accepted { set_errno (set_result self.old set (take count tracer.now.buffer)) ≡ None }
        ensures { self.new ≡ after_set self.old set (take count tracer.now.buffer) }
    {
        let bytes = &tracer.buffer[..count as usize];
        match set {
            Set::Xstate => self.take_xstate(bytes),
            Set::Fx => self.take_fx(bytes),
        }
    }

    /// Takes an Xstate set: what its bytes don't have is initial.
    fn take_xstate(&mut self, bytes: &[u8])
        requires accepted { set_errno (set_result self.old which.Xstate bytes.now) ≡ None }
        ensures { self.new ≡ after_set self.old which.Xstate bytes.now }
    {
        let Ok(parts) = self.read_xstate(bytes) else {
            unreachable!()
        };
        take_image(&mut self.file, bytes, &parts);
        self.marks = marks_by(&self.file, given(&self.file, parts.bits));
    }

    /// Takes an Fx set: x87, the XMM registers and MXCSR come from its bytes, and all else stays.
    fn take_fx(&mut self, bytes: &[u8])
        requires accepted { set_errno (set_result self.old which.Fx bytes.now) ≡ None }
        ensures { self.new ≡ after_set self.old which.Fx bytes.now }
    {
        let Ok(control) = read_fx(bytes) else {
            unreachable!()
        };
        take_legacy(&mut self.file, bytes, control);
        self.marks = marks_by(&self.file, added(self.marks));
    }
}

/// The components that an Xstate set of these bits marks: SSE also where MXCSR isn't initial.
fn given(file: &File, bits: Features) -> Features
    ensures { (c : ℕ) → has result.0 c ≡ is_given file.now bits.0 c }
{
    let sse = bits.has(Comp::SSE) || file.mxcsr() != INITIAL_MXCSR;
    bits.with(Comp::SSE, sse)
}

/// The components that an Fx set leaves marked: x87 and SSE too.
fn added(marks: Features) -> Features
    ensures { (c : ℕ) → has result.0 c ≡ is_added marks.0 c }
{
    marks.with(Comp::X87, true).with(Comp::SSE, true)
}

/// The marks of these components, PKRU by its value.
fn marks_by(file: &File, named: Features) -> Features
    ensures { result.0 ≡ set_of (mark_by file.now (has named.0)) component_numbers }
{
    let pkru = file.pkru() != 0;
    Features(named.0 & KNOWN).with(Comp::PKRU, pkru)
}
