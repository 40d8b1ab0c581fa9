//! An area and the readers of its header.

ghost use Rattle.std.specs.Prelude.{◌≡◌, ◌≤◌, length};
ghost use Rattle.xs_base.specs.Header as header;

use byteorder::{ByteOrder, LittleEndian};
use xs_base::Class;

/// A save area: its number, by which a bank knows it again, and its bytes. Bytes 0 to 511 are the legacy region and
/// 512 to 575 the header (SDM volume 1, 13.4).
#[derive(Debug, Drop)]
pub struct Area {
    /// The area's number.
    pub id: u64,
    /// The area's bytes, at least 576.
    pub bytes: Vec<u8>,
}

/// An area that a task has from a pool, and its class.
#[derive(Debug, Drop)]
pub struct Lease {
    /// The class.
    pub class: Class,
    /// The area.
    pub area: Area,
}

/// XSTATE_BV, bytes 512 to 519 of an area: the components that it has state of (SDM volume 1, 13.4.2).
#[tactic(auto, using(crate::proofs::LittleEndian::eight_bytes), unfolding(xs_base::specs::Header::xstate_bv))]
pub fn xstate_bv(bytes: &[u8]) -> u64
    requires { 576 ≤ length bytes.now }
    ensures { result ≡ header.xstate_bv bytes.now }
{
    LittleEndian::read_u64(&bytes[512..520])
}

/// XCOMP_BV, bytes 520 to 527 of an area: the components that have a place in the compacted format, and bit 63 for
/// that format (SDM volume 1, 13.4.2 and 13.4.3).
#[tactic(auto, using(crate::proofs::LittleEndian::eight_bytes), unfolding(xs_base::specs::Header::xcomp_bv))]
pub fn xcomp_bv(bytes: &[u8]) -> u64
    requires { 576 ≤ length bytes.now }
    ensures { result ≡ header.xcomp_bv bytes.now }
{
    LittleEndian::read_u64(&bytes[520..528])
}

/// MXCSR, bytes 24 to 27 of an area (SDM volume 1, 10.5.1).
#[tactic(auto, using(crate::proofs::LittleEndian::four_bytes), unfolding(xs_base::specs::Header::mxcsr))]
pub fn mxcsr(bytes: &[u8]) -> u32
    requires { 576 ≤ length bytes.now }
    ensures { result ≡ header.mxcsr bytes.now }
{
    LittleEndian::read_u32(&bytes[24..28])
}
