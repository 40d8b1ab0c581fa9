//! Worked rows: a bank loads an area, a register is read and written, and the bank saves into the same area.

ghost use Rattle.std.specs.Prelude.{◌≡◌, ℕ};
ghost use Rattle.xs_bank.specs.Bank.{IsReady};
ghost use Rattle.xs_bank_facts.specs.Turn.{KeepsReady};

use crate::calls::{Format, load, of_machine, read, save, write};
use crate::page::Page;
use xs_area::{Area, Class, make_initial};
use xs_bank::Bank;
use xs_base::{Features, put};
use xs_layout::Layout;

/// The components of each load and save: those of the machine `amx` but PKRU and TILEDATA.
const SMALL: Features = Features(0x200e7);

/// A worked row: the format of the load and of the save, XSTATE_BV and XCOMP_BV of an area without state, a byte of it that
/// becomes 1, whether it has bytes that are of no register, and the bytes that are written into the register.
type Row = (Format, u64, u64, usize, bool, u128);

/// XCOMP_BV of a Small area.
const NAMED: u64 = 0x8000_0000_0002_00e7;

/// Past the end of every area.
const NOWHERE: usize = usize::MAX;

/// The register of each row, and what the row shows.
const NAMES: &str = "\
xmm0 XSTATE_BV has a component that XCOMP_BV lacks
xmm0 an area of zeros
xmm0 a reserved byte is not zero
mxcsr a load from the standard format looks at no byte from 536 on
mxcsr MXCSR alone gives SSE its bit
xmm0 a register is written after a load
xmm3 the area of a first turn
none a save may leave bytes that are of no register: nothing was written
st0 ST0 was written
none the same in the standard format
st0 ST0 was written
";

/// The rows.
const ROWS: [Row; 11] = [
    (
        Format::Compacted,
        4,
        0x8000_0000_0000_0003,
        NOWHERE,
        false,
        0,
    ),
    (Format::Compacted, 0, 0, NOWHERE, false, 0),
    (Format::Compacted, 0, NAMED, 528, false, 0),
    (Format::Standard, 0, 0, 536, false, 0x1fa0),
    (Format::Compacted, 0, NAMED, NOWHERE, false, 0x1fa0),
    (Format::Compacted, 0, NAMED, NOWHERE, false, 1),
    (
        Format::Compacted,
        0,
        NAMED,
        NOWHERE,
        false,
        0xffee_ddcc_bbaa_9988_7766_5544_3322_1100,
    ),
    (Format::Compacted, 3, NAMED, NOWHERE, true, 0),
    (Format::Compacted, 3, NAMED, NOWHERE, true, 1),
    (Format::Standard, 3, 0, NOWHERE, true, 0),
    (Format::Standard, 3, 0, NOWHERE, true, 1),
];

/// Tells what a bank answers in each row.
pub fn tell_rows<B: Bank>(name: &str, bank: &mut B, area: &mut Area, page: &mut Page) {
    let layout = Layout::amx();
    for (i, line) in NAMES.lines().enumerate() {
        page.word(name);
        page.word(line);
        if let Some(row) = ROWS.get(i) {
            tell_row(bank, &layout, line, row, area, page);
        }
        page.word("\n");
    }
}

/// Tells a row: what the load answers, and then the register before the write, what the write and the save answer, and the
/// area.
fn tell_row<B: Bank>(
    bank: &mut B,
    layout: &Layout,
    line: &str,
    row: &Row,
    area: &mut Area,
    page: &mut Page,
) {
    page.word(" =");
    put_row(layout, row, &mut area.bytes);
    bank.set_up(layout);
    match load(bank, layout, row.0, SMALL, area) {
        Ok(()) => tell_turn(bank, layout, register_of(line), row, area, page),
        Err(refusal) => page.refusal(refusal),
    }
}

/// The register that a line names.
fn register_of(line: &str) -> &str {
    match line.split_once(' ') {
        Some((register, _)) => register,
        None => line,
    }
}

/// Makes it a Small area without state, and then the area of a row.
fn put_row(layout: &Layout, row: &Row, bytes: &mut [u8]) {
    if bytes.len() < 1024 {
        return;
    }
    make_initial(layout, Class::Small, bytes);
    put(bytes, 512, &row.1.to_le_bytes());
    put(bytes, 520, &row.2.to_le_bytes());
    put_at(bytes, row.3, &[1]);
    if row.4 {
        // Byte 5 is of x87, 160 of XMM0 and 576 of AVX. No save leaves such a 5 and 576.
        put_at(bytes, 5, &[1]);
        put_at(bytes, 160, &[7]);
        put_at(bytes, 576, &[9]);
    }
}

/// Puts bytes where there is room.
pub fn put_at(bytes: &mut [u8], at: usize, new: &[u8]) {
    if at <= bytes.len() && new.len() <= bytes.len() - at {
        put(bytes, at, new);
    }
}

/// Tells the part of a row that follows its load.
fn tell_turn<B: Bank>(
    bank: &mut B,
    layout: &Layout,
    register: &str,
    row: &Row,
    area: &mut Area,
    page: &mut Page,
)
    requires rows { (B.state bank.old).file.rows ≡ layout.now }
    requires ready { (m : ℕ) → IsReady (B.state bank.old) area.old.id m area.old.bytes.items }
{
    let mut bytes = [0; 64];
    put(&mut bytes, 0, &row.5.to_le_bytes());
    page.word(" ok");
    tell_register(bank, layout, register, page);
    page.outcome(write(bank, layout, register, bytes));
    page.outcome(save(bank, layout, row.0, of_machine(layout, SMALL), area));
    page.places(&area.bytes);
}

/// Tells a register.
fn tell_register<B: Bank>(bank: &mut B, layout: &Layout, register: &str, page: &mut Page)
    requires { (B.state bank.old).file.rows ≡ layout.now }
    ensures { KeepsReady (B.state bank.old) (B.state bank.new) }
{
    match read(bank, layout, register) {
        Ok(lane) => page.bytes(lane.as_slice()),
        Err(refusal) => page.refusal(refusal),
    }
}
