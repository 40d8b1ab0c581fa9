//! Images of the standard format from outside: whether they may be taken, and what they have.

ghost use Rattle.std.specs.Prelude.{◌≡◌, ◌+◌, ◌≤◌, length, slice_range, MatchResult};
ghost use Rattle.std.specs.Int.{from_le_bytes, w32};
ghost use Rattle.xs_base.specs.Layout as table;
ghost use Rattle.xs_base.specs.HeaderCheck as check;

use crate::area::{mxcsr, xcomp_bv, xstate_bv};
use byteorder::{ByteOrder, LittleEndian};
use xs_base::{Comp, Features, HeaderError, INITIAL_MXCSR, MOST_MXCSR, Origin, Parts, are_zero};
use xs_layout::Layout;

/// What an image in the standard format has, at least `full_size` bytes, or the first test that it fails where these
/// components are allowed (Linux 6.6, arch/x86/kernel/fpu/xstate.c, validate_user_xstate_header).
#[tactic(auto, using(xs_base::proofs::SizeLemmas::end_low))]
pub fn read_standard(
    layout: &Layout,
    bytes: &[u8],
    allowed: Features,
    origin: Origin,
) -> Result<Parts, HeaderError>
    requires { table.full_size layout.now ≤ length bytes.now }
    ensures error { MatchResult result (λ _. check.header_error origin allowed.0 bytes.now ≡ None) (λ e. check.header_error origin allowed.0 bytes.now ≡ Some e) }
    ensures parts { MatchResult result (λ parts. parts ≡ check.parts_in layout.now origin bytes.now) (λ _. Unit {0}) }
{
    if let Some(error) = header_error(bytes, allowed, origin) {
        return Err(error);
    }
    Ok(parts_of(layout, bytes, origin))
}

/// The first test that the image fails.
#[tactic(auto, unfolding(xs_base::specs::HeaderCheck::header_error))]
fn header_error(bytes: &[u8], allowed: Features, origin: Origin) -> Option<HeaderError>
    requires { 576 ≤ length bytes.now }
    ensures { result ≡ check.header_error origin allowed.0 bytes.now }
{
    let bits = Features(xstate_bv(bytes));
    if bits.has_outside(allowed) {
        return Some(HeaderError::Features);
    }
    if xcomp_bv(bytes) != 0 {
        return Some(HeaderError::Compacted);
    }
    if has_reserved(bytes) {
        return Some(HeaderError::Reserved);
    }
    if checks_mxcsr(origin, bits) && mxcsr(bytes) > MOST_MXCSR {
        return Some(HeaderError::Mxcsr);
    }
    None
}

/// Whether a reserved byte of the header isn't zero: bytes 528 to 575 (SDM volume 1, 13.4.2).
fn has_reserved(bytes: &[u8]) -> bool
    requires { 576 ≤ length bytes.now }
    ensures { result ≡ check.has_reserved bytes.now }
{
    !are_zero(&bytes[528..576])
}

/// Whether MXCSR is looked at.
fn checks_mxcsr(origin: Origin, bits: Features) -> bool
    ensures { result ≡ check.checks_mxcsr origin bits.0 }
{
    match origin {
        Origin::Frame(wanted) => wanted.has(Comp::SSE),
        Origin::Regset => bits.has(Comp::X87) || bits.has(Comp::SSE) || bits.has(Comp::AVX),
    }
}

/// What an accepted image has.
#[tactic(auto, using(xs_base::proofs::SizeLemmas::end_low))]
fn parts_of(layout: &Layout, bytes: &[u8], origin: Origin) -> Parts
    requires { table.full_size layout.now ≤ length bytes.now }
    ensures { result ≡ check.parts_in layout.now origin bytes.now }
{
    let bits = bits_of(bytes, origin);
    Parts {
        bits: Features(bits),
        mxcsr: mxcsr_of(bytes, origin),
        pkru: pkru_of(layout, bytes, Features(bits)),
    }
}

/// The components that come from the image.
fn bits_of(bytes: &[u8], origin: Origin) -> u64
    requires { 576 ≤ length bytes.now }
    ensures { result ≡ check.bits_in origin bytes.now }
{
    let bits = xstate_bv(bytes);
    match origin {
        Origin::Frame(wanted) => wanted.0 & bits,
        Origin::Regset => bits,
    }
}

/// The image's MXCSR, initial where it isn't taken from there.
fn mxcsr_of(bytes: &[u8], origin: Origin) -> u32
    requires { 576 ≤ length bytes.now }
    ensures { result ≡ check.mxcsr_in origin bytes.now }
{
    if takes_mxcsr(origin, Features(xstate_bv(bytes))) {
        mxcsr(bytes)
    } else {
        INITIAL_MXCSR
    }
}

/// Whether MXCSR comes from the image.
fn takes_mxcsr(origin: Origin, bits: Features) -> bool
    ensures { result ≡ check.takes_mxcsr origin bits.0 }
{
    match origin {
        Origin::Frame(wanted) => wanted.has(Comp::SSE),
        Origin::Regset => bits.has(Comp::SSE) || bits.has(Comp::AVX),
    }
}

/// The image's PKRU, 0 where it isn't taken from there.
fn pkru_of(layout: &Layout, bytes: &[u8], bits: Features) -> u32
    requires { table.full_size layout.now ≤ length bytes.now }
    ensures { result ≡ check.pkru_in layout.now bits.0 bytes.now }
{
    if !bits.has(Comp::PKRU) {
        return 0;
    }
    let Some(row) = layout.row(Comp::PKRU) else {
        return 0;
    };
    number_at(bytes, row.offset as usize)
}

/// The four bytes from byte `at` on, as a number.
#[tactic(auto, using(crate::proofs::LittleEndian::four_bytes))]
fn number_at(bytes: &[u8], at: usize) -> u32
    requires { at + 4 ≤ length bytes.now }
    ensures { result ≡ from_le_bytes w32 (slice_range bytes.now at (at + 4)) }
{
    LittleEndian::read_u32(&bytes[at..at + 4])
}
