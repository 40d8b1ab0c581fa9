//! Parts of some bytes: written over with plain bytes, zeros and components of the register state, and cut off at a byte.

ghost use Rattle.std.specs.Prelude.{◌≡◌, ℕ, ◌+◌, ◌≤◌, ◌<◌, ◌^◌, List, ◌∷◌, ◌++◌, length, slice_index, MatchOption, if◌then◌else◌};
ghost use Rattle.std.specs.Int.{to_le_bytes, w64};
ghost use Rattle.xs_base.specs.Bytes.{Lacks, splice, zeros};
ghost use Rattle.xs_base.specs.Component.{component_size, initial_part};
ghost use Rattle.xs_base.specs.File as file;
ghost use Rattle.xs_base.specs.File.{is_own};
ghost use Rattle.xs_base.specs.Standard.{IsWritten, IsCleaned, control_bytes};

use crate::component::Comp;
use memchr::memchr;

/// Writes bytes over a part of others, from byte `at` on.
#[tactic(auto, unfolding(crate::specs::Bytes::splice))]
pub fn put(out: &mut [u8], at: usize, bytes: &[u8])
    requires { at + length bytes.now ≤ length out.old }
    ensures written { out.new ≡ splice at bytes.now out.old }
    ensures len { length out.new ≡ length out.old }
{
    out[at..at + bytes.len()].copy_from_slice(bytes);
}

/// Writes a number of eight bytes, the lowest first, from byte `at` on.
pub fn put_number(out: &mut [u8], at: usize, number: u64)
    requires { at + 8 ≤ length out.old }
    ensures written { out.new ≡ splice at (to_le_bytes w64 number) out.old }
    ensures len { length out.new ≡ length out.old }
    ensures small { number < 2 ^ 64 }
{
    put(out, at, &number.to_le_bytes());
}

/// Makes `len` bytes zero, from byte `at` on.
#[tactic(auto, unfolding(crate::specs::Bytes::splice, crate::specs::Bytes::zeros))]
pub fn clear(out: &mut [u8], at: usize, len: usize)
    requires { at + len ≤ length out.old }
    ensures written { out.new ≡ splice at (zeros len) out.old }
    ensures len { length out.new ≡ length out.old }
{
    out[at..at + len].fill(0);
}

/// The bytes after the prefix, if they begin with it.
pub fn after<'a>(prefix: &[u8], bytes: &'a [u8]) -> Option<&'a [u8]>
    ensures { MatchOption result ((rest : List ℕ) → bytes.now ≡ prefix.now ++ rest → ⊥) (λ x. bytes.now ≡ prefix.now ++ x.now) }
{
    bytes.strip_prefix(prefix)
}

/// The bytes before the first `byte` and those after it, if there is one.
pub fn cut_at(byte: u8, bytes: &[u8]) -> Option<(&[u8], &[u8])>
    ensures { MatchOption result (Lacks byte bytes.now) (λ x. Lacks byte x.0.now × (bytes.now ≡ x.0.now ++ byte ∷ x.1.now)) }
{
    let at = memchr(byte, bytes)?;
    let (front, rest) = bytes.split_at(at);
    Some((front, &rest[1..]))
}

/// The bytes of the component PKRU.
#[tactic(auto, unfolding(crate::specs::Bytes::zeros))]
pub fn pkru_bytes(value: u32) -> [u8; 8]
    ensures { result ≡ file.pkru_bytes value }
{
    let [a, b, c, d] = value.to_le_bytes();
    [a, b, c, d, 0, 0, 0, 0]
}

/// Makes zero what belongs to no register of the component that stands from byte `at` on: byte 5, bytes 24 to 31 and the
/// upper six bytes of each ST slot of component 0, and the upper four bytes of component 9 (SDM volume 1, 13.5).
pub fn clean(out: &mut [u8], at: usize, comp: Comp)
    requires { at + component_size comp.0 ≤ length out.old }
    ensures { IsCleaned at comp.0 out.old out.new }
{
    if comp == Comp::X87 {
        clean_x87(out, at);
    } else if comp == Comp::PKRU {
        clear(out, at + 4, 4);
    }
}

/// `clean` of component 0.
#[tactic(auto, using(crate::proofs::ComponentLemmas::cleaned_all))]
fn clean_x87(out: &mut [u8], at: usize)
    requires { at + 160 ≤ length out.old }
    ensures { IsCleaned at 0 out.old out.new }
{
    clear(out, at + 5, 1);
    clear(out, at + 24, 8);
    'slots: for slot in 2..10 {
        clear(out, at + 16 * slot + 10, 6);
    }
}

/// Writes a component into an area, from byte `at` on: what belongs to no register becomes zero. Bytes 24 to 31 of the
/// area stay, where MXCSR and its mask stand (SDM volume 1, 10.5.1).
pub fn put_component(out: &mut [u8], at: usize, comp: Comp, bytes: &[u8])
    requires size { length bytes.now ≡ component_size comp.0 }
    requires within { at + length bytes.now ≤ length out.old }
    requires legacy { 32 ≤ length out.old }
    ensures { IsWritten at (length bytes.now) (λ k. if is_own comp.0 k then slice_index bytes.now k else 0) out.old out.new }
{
    let mut control = [0; 8];
    control.copy_from_slice(&out[24..32]);
    put(out, at, bytes);
    clean(out, at, comp);
    put(out, 24, &control);
}

/// Writes the initial configuration of a component, from byte `at` on (SDM volume 1, 13.6).
pub fn put_initial(out: &mut [u8], at: usize, comp: Comp, size: usize)
    requires size { size ≡ component_size comp.0 }
    requires within { at + size ≤ length out.old }
    ensures written { out.new ≡ splice at (initial_part comp.0) out.old }
    ensures len { length out.new ≡ length out.old }
{
    if comp == Comp::X87 {
        put(out, at, &[0x7f, 0x03]);
        clear(out, at + 2, size - 2);
    } else {
        clear(out, at, size);
    }
}

/// Writes the initial configuration of a component into an area, from byte `at` on. Bytes 24 to 31 of the area stay.
pub fn put_initial_component(out: &mut [u8], at: usize, comp: Comp, size: usize)
    requires size { size ≡ component_size comp.0 }
    requires within { at + size ≤ length out.old }
    requires legacy { 32 ≤ length out.old }
    ensures { IsWritten at size (λ k. slice_index (initial_part comp.0) k) out.old out.new }
{
    let mut control = [0; 8];
    control.copy_from_slice(&out[24..32]);
    put_initial(out, at, comp, size);
    put(out, 24, &control);
}

/// Writes MXCSR and MXCSR_MASK into an area, bytes 24 to 31 (SDM volume 1, 10.5.1).
#[tactic(auto, unfolding(crate::specs::Standard::control_bytes))]
pub fn put_control(out: &mut [u8], mxcsr: u32)
    requires { 32 ≤ length out.old }
    ensures written { out.new ≡ splice 24 (control_bytes mxcsr) out.old }
    ensures len { length out.new ≡ length out.old }
{
    let [a, b, c, d] = mxcsr.to_le_bytes();
    put(out, 24, &[a, b, c, d, 0xff, 0xff, 0, 0]);
}
