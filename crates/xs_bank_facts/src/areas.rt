//! Images and areas at worked values: what an image has, which areas can be read, what an area has as standard bytes, and what is
//! copied from one area to another.

use crate::page::Page;
use crate::rows::put_at;
use std::alloc::{AllocError, Global};
use xs_area::{Area, Origin, copy_area, read_standard, standard_of, stands};
use xs_base::Features;
use xs_layout::Layout;

/// The components of the machine `amx`.
const ALL: Features = Features(0x602e7);

/// XCOMP_BV without room for PKRU and TILEDATA, and without room for PKRU.
const SMALL: u64 = 0x8000_0000_0002_00e7;

const LARGE: u64 = 0x8000_0000_0006_00e7;

/// XCOMP_BV with AVX and OPMASK, with OPMASK and PKRU, and with ZMM_Hi256 alone.
const NO_SSE: u64 = 0x8000_0000_0000_0024;

const PROTECTED: u64 = 0x8000_0000_0000_0220;

const ZMM: u64 = 0x8000_0000_0000_0040;

/// XSTATE_BV of an image, where it comes from, and a byte that becomes 1. Byte 511 is of no component and no header.
const IMAGES: [(u64, Origin, usize); 13] = [
    // The header, and a byte behind it.
    (7, Origin::Regset, 511),
    (7, Origin::Regset, 576),
    // MXCSR is looked at with x87, SSE or AVX in a register set, and where SSE is wanted of a frame.
    (7, Origin::Frame(Features(5)), 26),
    (5, Origin::Frame(Features(2)), 26),
    (1, Origin::Regset, 26),
    (2, Origin::Regset, 26),
    (4, Origin::Regset, 26),
    (0x602e0, Origin::Regset, 26),
    // Parts.
    (0x602e7, Origin::Frame(Features(0x202e7)), 511),
    (0x204, Origin::Frame(Features(0x203)), 511),
    (0x602e7, Origin::Regset, 511),
    (4, Origin::Regset, 511),
    (0x201, Origin::Regset, 511),
];

/// Tells what each image has, or why it's refused: MXCSR is 1FA0H and PKRU 11223344H.
pub fn tell_images(area: &mut Area, page: &mut Page) {
    let layout = Layout::amx();
    for (bits, origin, at) in &IMAGES {
        put_image(&mut area.bytes, *bits, *at);
        page.word("image, byte");
        page.number(*bits);
        page.number(*at as u64);
        tell_image(&layout, *origin, &area.bytes, page);
        page.word("\n");
    }
}

/// Makes it an image with this XSTATE_BV, where a byte is 1.
fn put_image(bytes: &mut [u8], bits: u64, at: usize) {
    bytes.fill(0);
    put_at(bytes, 24, &[0xa0, 0x1f]);
    put_at(bytes, 512, &bits.to_le_bytes());
    put_at(bytes, 2688, &[0x44, 0x33, 0x22, 0x11]);
    put_at(bytes, at, &[1]);
}

/// Tells where an image comes from, and what it has.
fn tell_image(layout: &Layout, origin: Origin, image: &[u8], page: &mut Page) {
    match origin {
        Origin::Frame(wanted) => {
            page.word(" of a frame");
            page.number(wanted.0);
        }
        Origin::Regset => page.word(" of a register set"),
    }
    page.word(" =");
    if image.len() < layout.full_size() as usize {
        return;
    }
    match read_standard(layout, image, ALL, origin) {
        Ok(parts) => {
            page.number(parts.bits.0);
            page.number(u64::from(parts.mxcsr));
            page.number(u64::from(parts.pkru));
        }
        Err(error) => page.error(error),
    }
}

/// An area of zeros with this XCOMP_BV, XSTATE_BV and MXCSR.
fn stored(
    alloc: Global,
    (names, len): (u64, usize),
    bits: u64,
    mxcsr: u32,
) -> Result<Area, AllocError> {
    let mut bytes = vec![in alloc; 0u8; len]?;
    put_at(&mut bytes, 24, &mxcsr.to_le_bytes());
    put_at(&mut bytes, 512, &bits.to_le_bytes());
    put_at(&mut bytes, 520, &names.to_le_bytes());
    Ok(Area { id: 1, bytes })
}

/// The length of an area, its XSTATE_BV and XCOMP_BV. The first five have a header too short, or just long enough, or lack a byte of the
/// standard format; the next two a component that no machine has. The others are of the compacted format.
const AREAS: [(usize, u64, u64); 14] = [
    (575, 0, 0),
    (576, 0, 0),
    (11008, 0x602e7, 0),
    (11007, 0x602e7, 0),
    (2816, 0x202e7, 0),
    (11008, 0x8, 0),
    (11008, 1 << 63, 0),
    (10688, 0x600e7, LARGE),
    (10687, 0x600e7, LARGE),
    (2496, 0x200e7, LARGE),
    (10688, 0x602e7, LARGE),
    (1088, 0x40, ZMM),
    (1087, 0x40, ZMM),
    (1088, 0x42, ZMM),
];

/// Tells which areas of the machine `amx` can be read.
pub fn tell_areas(alloc: Global, page: &mut Page) -> Result<(), AllocError> {
    let layout = Layout::amx();
    for (len, bits, names) in &AREAS {
        let area = stored(alloc, (*names, *len), *bits, 0)?;
        page.word("area");
        page.number(*len as u64);
        page.number(*bits);
        page.number(*names);
        page.word(" can be read =");
        page.fact(stands(&layout, &area));
        page.word("\n");
    }
    Ok(())
}

/// Where components begin: the XCOMP_BV that has them there, the place, and a byte of theirs.
const PLACES: [(u64, usize, u8); 17] = [
    (0, 160, 0x11),
    (0, 576, 0x22),
    (0, 1088, 5),
    (0, 2688, 3),
    (0, 2752, 0x17),
    (0, 2816, 0x18),
    (SMALL, 160, 0x11),
    (SMALL, 576, 0x22),
    (SMALL, 832, 5),
    (SMALL, 2432, 0x17),
    (LARGE, 160, 0x11),
    (LARGE, 832, 5),
    (LARGE, 2432, 0x17),
    (LARGE, 2496, 0x18),
    (NO_SSE, 832, 5),
    (PROTECTED, 576, 5),
    (PROTECTED, 640, 3),
];

/// The XCOMP_BV of an area, its length and its bits, and the XCOMP_BV and the length of the area that these are copied to.
const COPIES: [(u64, usize, u64, u64, usize); 15] = [
    (SMALL, 2496, 0x20022, LARGE, 10688),
    (LARGE, 10688, 0x60020, SMALL, 2496),
    (SMALL, 2496, 0x26, 0, 11008),
    (0, 11008, 0x20, SMALL, 2496),
    // TILEDATA, and then a standard area too short for a component.
    (LARGE, 10688, 0x60022, 0, 11008),
    (LARGE, 10688, 0x60022, 0, 11007),
    (LARGE, 10688, 0x60022, 0, 2815),
    (LARGE, 10688, 0x60022, 0, 1151),
    (LARGE, 10688, 0x60022, 0, 576),
    // A compacted area without SSE.
    (0, 11008, 0x26, NO_SSE, 896),
    (0, 11008, 0, NO_SSE, 896),
    // PKRU stays behind.
    (0, 11008, 0x220, 0, 11008),
    (0, 11008, 0x220, PROTECTED, 648),
    (PROTECTED, 648, 0x220, 0, 11008),
    (PROTECTED, 648, 0x220, PROTECTED, 648),
];

/// Tells copies: the area that was written, and its standard bytes with PKRU 04030201H. MXCSR is 1FA0H. Before a copy the first byte of each
/// component of the area is 55H, so that what a copy leaves as it is shows.
pub fn tell_copies(alloc: Global, page: &mut Page) -> Result<(), AllocError> {
    for copy in &COPIES {
        page.word("copy of bits, XCOMP_BV to XCOMP_BV, bytes");
        page.number(copy.2);
        page.number(copy.0);
        page.number(copy.3);
        page.number(copy.4 as u64);
        page.word(" =");
        tell_copy(alloc, *copy, page)?;
        page.word("\n");
    }
    Ok(())
}

/// Makes both areas, and tells the copy.
fn tell_copy(
    alloc: Global,
    (names, len, bits, to_names, to_len): (u64, usize, u64, u64, usize),
    page: &mut Page,
) -> Result<(), AllocError> {
    let mut from = stored(alloc, (names, len), bits, 0x1fa0)?;
    let mut to = stored(alloc, (to_names, to_len), 0, 0)?;
    put_places(names, &mut from.bytes);
    fill_places(to_names, &mut to.bytes);
    tell_copied(&Layout::amx(), &from, &mut to, page);
    Ok(())
}

/// Writes a byte of each component that is placed by this XCOMP_BV.
fn put_places(names: u64, bytes: &mut [u8]) {
    for (form, at, value) in &PLACES {
        if *form == names {
            put_at(bytes, *at, &[*value]);
        }
    }
}

/// Writes 55H to the first byte of each component that is placed by this XCOMP_BV.
fn fill_places(names: u64, bytes: &mut [u8]) {
    for (form, at, _) in &PLACES {
        if *form == names {
            put_at(bytes, *at, &[0x55]);
        }
    }
}

/// Copies an area, and tells what was written.
fn tell_copied(layout: &Layout, from: &Area, to: &mut Area, page: &mut Page) {
    if to.bytes.len() < 576 || !stands(layout, from) {
        return;
    }
    copy_area(layout, from, to);
    page.places(&to.bytes);
    page.word("\n      and as standard bytes:");
    tell_standard(layout, to, page);
}

/// Tells the standard bytes of an area, of all components but TILEDATA.
fn tell_standard(layout: &Layout, area: &Area, page: &mut Page) {
    let mask = Features(0x202e7);
    let mut out = [0u8; 2816];
    if out.len() < layout.standard_size(mask) as usize || !stands(layout, area) {
        return;
    }
    standard_of(layout, area, 0x0403_0201, mask, &mut out);
    page.places(&out);
}
