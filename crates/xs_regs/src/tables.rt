//! The table of registers: names, components, and places in them (SDM volume 1, 10.5.1, 13.4 and 13.5).

use xs_base::{Comp, Place};

/// A register with a name of its own.
#[derive(Clone, Copy)]
pub struct Single {
    /// The name.
    pub name: &'static [u8],
    /// Where it stands.
    pub place: Place,
}

/// A run of registers whose names are a stem and a number: the first has the number `from` and stands at `offset`, and
/// each next one stands `stride` bytes further.
#[derive(Clone, Copy)]
pub struct Family {
    /// What stands before the number.
    pub stem: &'static [u8],
    /// The first number.
    pub from: u8,
    /// How many there are.
    pub count: u8,
    /// The number of their component.
    pub component: u8,
    /// The byte of the component that the first begins at.
    pub offset: u16,
    /// The bytes from one to the next.
    pub stride: u16,
    /// The bytes of each.
    pub len: u8,
}

macro_rules! single {
    ($name:literal, $component:literal, $offset:literal, $len:literal) => {
        Single {
            name: $name,
            place: Place {
                comp: Comp($component),
                offset: $offset,
                len: $len,
            },
        }
    };
}

macro_rules! family {
    ($stem:literal, $from:literal, $count:literal, $component:literal, $offset:literal, $stride:literal, $len:literal) => {
        Family {
            stem: $stem,
            from: $from,
            count: $count,
            component: $component,
            offset: $offset,
            stride: $stride,
            len: $len,
        }
    };
}

/// The registers that are no family's.
pub static SINGLES: [Single; 9] = [
    single!(b"fcw", 0, 0, 2),
    single!(b"fsw", 0, 2, 2),
    single!(b"ftw", 0, 4, 1),
    single!(b"fop", 0, 6, 2),
    single!(b"fip", 0, 8, 8),
    single!(b"fdp", 0, 16, 8),
    single!(b"mxcsr", 1, 256, 4),
    single!(b"pkru", 9, 0, 4),
    single!(b"tilecfg", 17, 0, 64),
];

/// The families.
pub static FAMILIES: [Family; 6] = [
    family!(b"st", 0, 8, 0, 32, 16, 10),
    family!(b"xmm", 0, 16, 1, 0, 16, 16),
    family!(b"ymmh", 0, 16, 2, 0, 16, 16),
    family!(b"k", 0, 8, 5, 0, 8, 8),
    family!(b"zmmh", 0, 16, 6, 0, 32, 32),
    family!(b"zmm", 16, 16, 7, 0, 64, 64),
];
