//! Random registers, components and formats: the same ones for each bank.

ghost use Rattle.std.specs.Prelude.{◌<◌};

use crate::calls::Format;
use xs_base::{Features, put};

/// Registers of every component, at both ends of their families.
const NAMES: &str =
    "fcw fsw ftw fop fip fdp st0 st7 mxcsr mxcsr xmm0 xmm7 xmm15 ymmh0 ymmh9 ymmh15 k0 k3 k7 zmmh0 zmmh8 zmmh15 zmm16 zmm20 zmm31 pkru tilecfg tilecfg tmm0.0 tmm0.0 tmm3.7 tmm7.15";

/// A linear congruential generator with Knuth's numbers.
#[derive(Drop)]
pub struct Random {
    /// What the next number is made from.
    pub state: u64,
}

impl Random {
    /// The next number.
    fn next(&mut self) -> u64 {
        self.state = self
            .state
            .wrapping_mul(6364136223846793005)
            .wrapping_add(1442695040888963407);
        self.state >> 24
    }

    /// A number below another.
    pub fn below(&mut self, most: u64) -> u64
        requires { 0 < most }
        ensures { result < most }
    {
        self.next() % most
    }

    /// The name of a register of the machine `amx`.
    pub fn name(&mut self) -> &'static str {
        let i = self.below(32) as usize;
        NAMES.split(' ').nth(i).unwrap_or("pkru")
    }

    /// Bytes for a register: often those of one that is initial.
    pub fn bytes(&mut self) -> [u8; 64] {
        let mut bytes = [0; 64];
        match self.below(6) {
            0 | 1 => {}
            2 => put(&mut bytes, 0, &[0x7f, 0x03]),
            3 => put(&mut bytes, 0, &[0x80, 0x1f]),
            _ => {
                for i in 0..64 {
                    bytes[i] = (self.next() & 0xff) as u8;
                }
            }
        }
        bytes
    }

    /// PKRU.
    pub fn pkru(&mut self) -> u32 {
        (self.next() & 0xffff_ffff) as u32
    }

    /// A set of components of the machine `amx`.
    pub fn mask(&mut self) -> Features {
        match self.below(6) {
            0 => Features(0x600e7),
            1 => Features(0x200e7),
            2 | 3 => Features(0x602e7),
            4 => Features(1 << self.below(19)),
            _ => Features(self.next() & 0x602e7),
        }
    }

    /// The format of a save or a load of an area: that of the area but for one of eight.
    pub fn format(&mut self, is_standard: bool) -> Format {
        let other = self.below(8) == 0;
        if is_standard != other {
            Format::Standard
        } else {
            Format::Compacted
        }
    }
}
