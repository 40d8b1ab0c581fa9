//! Reasons against a load, in every set of them.

ghost use Rattle.std.specs.Prelude.{◌≡◌};

use crate::calls::{Format, Refusal, load};
use crate::page::Page;
use xs_area::{Area, Origin, read_standard};
use xs_bank::{Bank, Trap};
use xs_base::{Features, HeaderError, put};
use xs_layout::Layout;

/// A reason against a load: bits of a byte of the area that are turned, and what the load answers for it alone.
type Cause = (usize, u8, Trap);

/// The reasons against a load from the compacted format, in their order.
const COMPACTED: [Cause; 9] = [
    // XSTATE_BV and XCOMP_BV name component 3, which no machine here has; AVX has no place.
    (512, 8, Trap::Gp(HeaderError::Features)),
    (520, 8, Trap::Gp(HeaderError::Features)),
    (512, 4, Trap::Gp(HeaderError::Features)),
    // Bit 63 of XCOMP_BV is 0.
    (527, 0x80, Trap::Gp(HeaderError::Compacted)),
    // A reserved byte isn't 0.
    (528, 1, Trap::Gp(HeaderError::Reserved)),
    (536, 1, Trap::Gp(HeaderError::Reserved)),
    (575, 1, Trap::Gp(HeaderError::Reserved)),
    // Bit 16 of MXCSR.
    (26, 1, Trap::Gp(HeaderError::Mxcsr)),
    // TILEDATA, which is armed.
    (514, 4, Trap::Nm(Features(0x40000))),
];

/// The reasons against a load from the standard format, in their order.
const STANDARD: [Cause; 7] = [
    (512, 8, Trap::Gp(HeaderError::Features)),
    // XCOMP_BV isn't 0.
    (520, 1, Trap::Gp(HeaderError::Compacted)),
    (527, 0x80, Trap::Gp(HeaderError::Compacted)),
    (528, 1, Trap::Gp(HeaderError::Reserved)),
    (535, 1, Trap::Gp(HeaderError::Reserved)),
    (26, 1, Trap::Gp(HeaderError::Mxcsr)),
    (514, 4, Trap::Nm(Features(0x40000))),
];

/// The reasons against an image, in their order.
const IMAGE: [Cause; 8] = [
    // Component 8 isn't allowed.
    (513, 1, Trap::Gp(HeaderError::Features)),
    (520, 1, Trap::Gp(HeaderError::Compacted)),
    (527, 0x80, Trap::Gp(HeaderError::Compacted)),
    (528, 1, Trap::Gp(HeaderError::Reserved)),
    (535, 1, Trap::Gp(HeaderError::Reserved)),
    (536, 1, Trap::Gp(HeaderError::Reserved)),
    (575, 1, Trap::Gp(HeaderError::Reserved)),
    (26, 1, Trap::Gp(HeaderError::Mxcsr)),
];

/// The components of the loads: all but PKRU, SSE and TILEDATA alone, and AVX and TILEDATA alone, which a standard load
/// looks at MXCSR for too.
const COMPACTED_MASKS: [u64; 2] = [0x600e7, 0x40002];

/// The same for loads from the standard format.
const STANDARD_MASKS: [u64; 3] = [0x600e7, 0x40002, 0x40004];

/// Tells whether each load of an area with a set of reasons against it answers the first of them, and none where the set is
/// empty.
pub fn tell_causes<B: Bank>(name: &str, bank: &mut B, area: &mut Area, page: &mut Page) {
    let layout = Layout::amx();
    let mut well = true;
    for mask in COMPACTED_MASKS {
        well &= every_set(bank, &layout, Format::Compacted, mask, area);
    }
    for mask in STANDARD_MASKS {
        well &= every_set(bank, &layout, Format::Standard, mask, area);
    }
    page.word(name);
    page.word("every set of reasons against a load is answered by the first =");
    page.fact(well);
    page.word("\n");
}

/// Whether a load with these components answers the first of each set. Bits of a set past the last reason name none.
fn every_set<B: Bank>(
    bank: &mut B,
    layout: &Layout,
    format: Format,
    mask: u64,
    area: &mut Area,
) -> bool {
    for set in 0..512 {
        if !answers_first(bank, layout, format, mask, area, set) {
            return false;
        }
    }
    true
}

/// Whether it answers the first of a set, by a bank that is set up for a machine where TILEDATA is armed.
fn answers_first<B: Bank>(
    bank: &mut B,
    layout: &Layout,
    format: Format,
    mask: u64,
    area: &mut Area,
    set: u32,
) -> bool {
    bank.set_up(layout);
    put_header(area, format);
    let expected = match format {
        Format::Standard => put_causes(area, &STANDARD, set),
        Format::Compacted => put_causes(area, &COMPACTED, set),
    };
    match load(bank, layout, format, Features(mask), area) {
        Ok(()) => expected == None,
        Err(Refusal::Trapped(trap)) => expected == Some(trap),
        Err(Refusal::NotMade) => false,
    }
}

/// Makes it an area of zeros of the format, with XMM registers and MXCSR 1F80H.
fn put_header(area: &mut Area, format: Format) {
    area.bytes.fill(0);
    let names: u64 = match format {
        Format::Standard => 0,
        Format::Compacted => 0x8000_0000_0006_0003,
    };
    if area.bytes.len() >= 576 {
        put(&mut area.bytes, 24, &[0x80, 0x1f]);
        put(&mut area.bytes, 512, &[2]);
        put(&mut area.bytes, 520, &names.to_le_bytes());
    }
}

/// Turns the bits of the causes of a set, and answers the first of them.
fn put_causes(area: &mut Area, causes: &[Cause], set: u32) -> Option<Trap> {
    let mut first = None;
    for (i, (at, bits, trap)) in causes.iter().enumerate() {
        if i < 32 && set & (1 << i) != 0 && *at < area.bytes.len() {
            area.bytes[*at] ^= *bits;
            first = first.or(Some(*trap));
        }
    }
    first
}

/// Tells whether each image of the machine `amx` or `avx` with a set of reasons against it is refused by the first of them.
pub fn tell_image_causes(area: &mut Area, page: &mut Page) {
    let frame = Origin::Frame(Features(7));
    let mut well = every_image(&Layout::amx(), frame, area);
    well &= every_image(&Layout::amx(), Origin::Regset, area);
    well &= every_image(&Layout::avx(), frame, area);
    well &= every_image(&Layout::avx(), Origin::Regset, area);
    page.word("every set of reasons against an image is answered by the first =");
    page.fact(well);
    page.word("\n");
}

/// Whether an image from there is refused by the first reason of each set, and taken where the set is empty.
fn every_image(layout: &Layout, origin: Origin, area: &mut Area) -> bool {
    for set in 0..256 {
        put_header(area, Format::Standard);
        let expected = put_causes(area, &IMAGE, set);
        if !is_told(layout, origin, &area.bytes, expected) {
            return false;
        }
    }
    true
}

/// Whether the image is refused for this reason, or taken where there is none.
fn is_told(layout: &Layout, origin: Origin, image: &[u8], expected: Option<Trap>) -> bool {
    if image.len() < layout.full_size() as usize {
        return false;
    }
    match read_standard(layout, image, Features(7), origin) {
        Ok(_) => expected == None,
        Err(error) => expected == Some(Trap::Gp(error)),
    }
}
