//! Components, sets of components, and the rows and places that name them.

ghost use Rattle.std.specs.Prelude.{⊤, ◌≡◌, ℕ, ◌<◌, ◌==◌, [], ◌∷◌, codes, if◌then◌else◌};
ghost use Rattle.xs_base.specs.Compact as compact;
ghost use Rattle.xs_base.specs.File as file;
ghost use Rattle.xs_base.specs.HeaderCheck as check;
ghost use Rattle.xs_base.specs.Layout as table;
ghost use Rattle.xs_base.specs.Sets.{has};
ghost use Rattle.xs_base.specs.Standard as standard;

use bitflags::{Flag, Flags, bitflag_items};

/// A component of the extended state by its number, 0 to 62: bit `i` of XCR0, XSTATE_BV and XCOMP_BV is that of
/// component `i` (SDM volume 1, 13.1).
#[derive(Clone, Copy, PartialEq, Eq, Debug, Default)]
pub struct Comp(pub u8);

impl Comp {
    /// The registers of x87.
    pub const X87: Comp = Comp(0);
    /// The XMM registers, with which MXCSR goes.
    pub const SSE: Comp = Comp(1);
    /// The upper halves of the YMM registers.
    pub const AVX: Comp = Comp(2);
    /// The mask registers k0 to k7.
    pub const OPMASK: Comp = Comp(5);
    /// The upper halves of ZMM 0 to 15.
    pub const ZMM_HI256: Comp = Comp(6);
    /// ZMM 16 to 31.
    pub const HI16_ZMM: Comp = Comp(7);
    /// The rights of the protection keys.
    pub const PKRU: Comp = Comp(9);
    /// The shapes of the tiles.
    pub const TILECFG: Comp = Comp(17);
    /// The tiles.
    pub const TILEDATA: Comp = Comp(18);
}

/// The bit of XCOMP_BV that tells the compacted format (SDM volume 1, 13.4.2).
const COMPACTED_BIT: u8 = 63;

/// A set of components, one bit each, as XCR0 and XSTATE_BV have them (SDM volume 1, 13.1 and 13.4.2).
/// Any bits may be kept, also those of components that no machine here has.
#[derive(Clone, Copy, PartialEq, Eq, Debug)]
pub struct Features(pub u64);

bitflag_items! {
    impl Features: u64 {
        const X87 = 0x1;
        const SSE = 0x2;
        const AVX = 0x4;
        const OPMASK = 0x20;
        const ZMM_HI256 = 0x40;
        const HI16_ZMM = 0x80;
        const PKRU = 0x200;
        const TILECFG = 0x20000;
        const TILEDATA = 0x40000;
    }
}

impl Flags for Features {
    type Bits = u64;

    ghost exact = { ⊤ };

    ghost table = { (codes "X87", 0x1)
        ∷ (codes "SSE", 0x2)
        ∷ (codes "AVX", 0x4)
        ∷ (codes "OPMASK", 0x20)
        ∷ (codes "ZMM_HI256", 0x40)
        ∷ (codes "HI16_ZMM", 0x80)
        ∷ (codes "PKRU", 0x200)
        ∷ (codes "TILECFG", 0x20000)
        ∷ (codes "TILEDATA", 0x40000)
        ∷ [] };

    ghost set_of = { λ f. f.0 };

    fn flags<'a>() -> &'a [Flag<Features>] {
        Features::FLAGS
    }

    fn bits(&self) -> u64 {
        self.0
    }

    fn from_bits_retain(bits: u64) -> Features {
        Features(bits)
    }
}

impl Features {
    /// Whether the set has the component's bit. A set has no bit above 63.
    pub fn has(&self, c: Comp) -> bool
        ensures { result ≡ has self.now.0 c.0 }
    {
        let bits = self.0;
        if c.0 >= 64 {
            return false;
        }
        (bits >> c.0) & 1 == 1
    }

    /// Whether the set has SSE or AVX, with which MXCSR goes in the standard format (SDM volume 1, 13.7).
    pub fn has_control(&self) -> bool
        ensures { result ≡ standard.has_control self.now.0 }
    {
        self.has(Comp::SSE) || self.has(Comp::AVX)
    }

    /// Whether the set has a component that isn't in the other.
    pub fn has_outside(self, allowed: Features) -> bool
        ensures { result ≡ check.has_outside self.0 allowed.0 }
    {
        self.0 & allowed.0 != self.0
    }

    /// Whether an area with this XCOMP_BV is in the compacted format.
    pub fn is_compacted(&self) -> bool
        ensures { result ≡ compact.is_compacted self.now.0 }
    {
        self.has(Comp(COMPACTED_BIT))
    }

    /// Whether an area with this XCOMP_BV has a place for the component, where the machine has the component.
    pub fn leaves_place(&self, c: Comp) -> bool
        ensures { result ≡ compact.leaves_place self.now.0 c.0 }
    {
        !self.is_compacted() || self.has(c)
    }

    /// The set with the component where `there`, and without it where not. The number is below 64. No other component
    /// comes or goes.
    pub fn with(self, c: Comp, there: bool) -> Features
        requires { c.0 < 64 }
        ensures { (d : ℕ) → has result.0 d ≡ (if d == c.0 then there else has self.0 d) }
    {
        if there {
            Features(self.0 | 1 << c.0)
        } else {
            Features(self.0 & !(1 << c.0))
        }
    }
}

/// A row of a machine's table of components: what CPUID leaf 0DH tells of one (SDM volume 1, 13.2), rows 0 and 1
/// included. The size and the offset in the standard format are in bytes.
#[derive(Clone, Copy, PartialEq, Eq, Debug, Default)]
pub struct Row {
    /// The component's number.
    pub comp: Comp,
    /// Its bytes.
    pub size: u32,
    /// The byte of the standard format that it begins at.
    pub offset: u32,
    /// The bits of ECX.
    pub flags: u32,
}

impl Row {
    const SUPERVISOR: u8 = 0;

    const ALIGNED: u8 = 1;

    const XFD: u8 = 2;

    /// Whether the component is a supervisor's.
    pub fn is_supervisor(&self) -> bool
        ensures { result ≡ table.is_supervisor self.now }
    {
        self.has_flag(Row::SUPERVISOR)
    }

    /// Whether the component begins at a multiple of 64 in the compacted format.
    pub fn is_aligned(&self) -> bool
        ensures { result ≡ table.is_aligned self.now }
    {
        self.has_flag(Row::ALIGNED)
    }

    /// Whether XFD supports the component (SDM volume 1, 13.14).
    pub fn has_xfd(&self) -> bool
        ensures { result ≡ table.has_xfd self.now }
    {
        self.has_flag(Row::XFD)
    }

    /// Whether the flags have the bit.
    fn has_flag(&self, bit: u8) -> bool
        ensures { result ≡ has self.now.flags bit }
    {
        Features(u64::from(self.flags)).has(Comp(bit))
    }
}

/// Where a register stands: `len` bytes of a component, from `offset` on.
#[derive(Clone, Copy, PartialEq, Eq, Debug)]
pub struct Place {
    /// The component.
    pub comp: Comp,
    /// The byte of the component that the register begins at.
    pub offset: u32,
    /// The register's bytes, at most 64.
    pub len: u32,
}

impl Place {
    /// Whether this is the place of MXCSR, which is no byte of component 1: its offset is the component's end. That place is
    /// this project's own.
    pub fn is_mxcsr(&self) -> bool
        ensures { result ≡ file.is_mxcsr self.now }
    {
        self.comp == Comp::SSE && self.offset == 256
    }
}
