//! Rounds of random calls on two banks, which answer the same.

ghost use Rattle.std.specs.Prelude.{◌≡◌, ℕ, true, List, IfOk};
ghost use Rattle.xs_base.specs.Layout.{has_row};
ghost use Rattle.xs_base.specs.Sets.{has};
ghost use Rattle.xs_bank.specs.Bank.{IsReady};
ghost use Rattle.xs_bank_facts.specs.Turn.{KeepsReady};

use crate::calls::{
    Refusal, arm, load, names_of, of_machine, read, save, save_buffer, start, write,
};
use crate::side::{KINDS, Side, Tools};
use xs_area::{Area, Class, make_initial, standard_of, stands, xstate_bv};
use xs_bank::Bank;
use xs_base::Features;
use xs_layout::Layout;

/// An instruction on registers, or a save into the buffer.
fn instruction<B: Bank>(bank: &mut B, layout: &Layout, tools: &mut Tools)
    requires { (B.state bank.old).file.rows ≡ layout.now }
    ensures { KeepsReady (B.state bank.old) (B.state bank.new) }
{
    match tools.random.below(16) {
        0..5 => random_read(bank, layout, tools),
        5..11 => random_write(bank, layout, tools),
        11 => {
            bank.tile_release();
            tools.log.count(2);
        }
        12 => {
            bank.wrpkru(tools.random.pkru());
            tools.log.count(3);
        }
        13 => {
            let tiles = tools.random.below(3) == 0;
            tools.log.done(4, arm(bank, layout, tiles));
        }
        _ => random_store(bank, layout, tools),
    }
}

/// A read of a register.
fn random_read<B: Bank>(bank: &mut B, layout: &Layout, tools: &mut Tools)
    requires { (B.state bank.old).file.rows ≡ layout.now }
    ensures { KeepsReady (B.state bank.old) (B.state bank.new) }
{
    match read(bank, layout, tools.random.name()) {
        Ok(lane) => {
            tools.log.take_all(lane.as_slice());
            tools.log.count(0);
        }
        Err(refusal) => tools.log.done(0, Err(refusal)),
    }
}

/// A write of a register.
fn random_write<B: Bank>(bank: &mut B, layout: &Layout, tools: &mut Tools)
    requires { (B.state bank.old).file.rows ≡ layout.now }
    ensures { KeepsReady (B.state bank.old) (B.state bank.new) }
{
    let name = tools.random.name();
    let bytes = tools.random.bytes();
    tools.log.done(1, write(bank, layout, name, bytes));
}

/// A save into the buffer.
fn random_store<B: Bank>(bank: &mut B, layout: &Layout, tools: &mut Tools)
    requires { (B.state bank.old).file.rows ≡ layout.now }
    ensures { KeepsReady (B.state bank.old) (B.state bank.new) }
{
    let mask = tools.random.mask();
    let stored = save_buffer(bank, layout, mask, &mut tools.buffer);
    tools.log.done(5, stored);
    tools.log.take_all(&tools.buffer);
}

/// Two instructions. What the bank counts is taken up after each.
fn two<B: Bank>(bank: &mut B, layout: &Layout, tools: &mut Tools)
    requires { (B.state bank.old).file.rows ≡ layout.now }
    ensures { KeepsReady (B.state bank.old) (B.state bank.new) }
{
    instruction(bank, layout, tools);
    tools.log.counts(bank);
    instruction(bank, layout, tools);
    tools.log.counts(bank);
}

/// Instructions and a save into an area.
fn step<B: Bank>(bank: &mut B, layout: &Layout, mask: Features, area: &mut Area, tools: &mut Tools)
    requires rows { (B.state bank.old).file.rows ≡ layout.now }
    requires machine { (c : ℕ) → has mask.0 c ≡ true → has_row layout.now c ≡ true }
    requires ready { IsReady (B.state bank.old) area.old.id mask.0 area.old.bytes.items }
    ensures rows { (B.state bank.new).file.rows ≡ layout.now }
    ensures ready { IsReady (B.state bank.new) area.new.id mask.0 area.new.bytes.items }
{
    two(bank, layout, tools);
    two(bank, layout, tools);
    let format = tools.random.format(names_of(area) == 0);
    let saved = save(bank, layout, format, mask, area);
    tools.log.done(6 + format as usize, saved);
    tools.log.counts(bank);
    take_area(layout, area, tools);
}

/// Takes up XSTATE_BV and XCOMP_BV of an area, and what it stands for.
fn take_area(layout: &Layout, area: &Area, tools: &mut Tools) {
    if area.bytes.len() >= 576 {
        tools.log.take(xstate_bv(&area.bytes));
        tools.log.take(names_of(area));
    }
    let all = layout.features();
    if tools.buffer.len() < layout.standard_size(all) as usize || !stands(layout, area) {
        return;
    }
    standard_of(layout, area, 0, all, &mut tools.buffer);
    tools.log.take_all(&tools.buffer);
    tools.log.count(10);
}

/// Instructions and saves into an area.
fn steps<B: Bank>(bank: &mut B, layout: &Layout, area: &mut Area, tools: &mut Tools)
    requires rows { (B.state bank.old).file.rows ≡ layout.now }
    requires ready { (m : ℕ) → IsReady (B.state bank.old) area.old.id m area.old.bytes.items }
    ensures { (B.state bank.new).file.rows ≡ layout.now }
{
    let mask = of_machine(layout, tools.random.mask());
    step(bank, layout, mask, area, tools);
    step(bank, layout, mask, area, tools);
}

/// Loads an area.
fn random_load<B: Bank>(
    bank: &mut B,
    layout: &Layout,
    area: &Area,
    tools: &mut Tools,
) -> Result<(), Refusal>
    requires { (B.state bank.old).file.rows ≡ layout.now }
    ensures rows { (B.state bank.new).file.rows ≡ layout.now }
    ensures ready { IfOk result (λ _. (m : ℕ) → IsReady (B.state bank.new) area.now.id m area.now.bytes.items) }
    ensures others { IfOk result (λ _. (id m : ℕ) (bytes : List ℕ) → (id ≡ area.now.id → ⊥) → IsReady (B.state bank.new) id m bytes) }
{
    let format = tools.random.format(names_of(area) == 0);
    let loaded = load(bank, layout, format, tools.random.mask(), area);
    tools.log.done(8 + format as usize, loaded);
    loaded
}

/// Loads an area, and saves into it.
fn stay<B: Bank>(bank: &mut B, layout: &Layout, area: &mut Area, tools: &mut Tools)
    requires { (B.state bank.old).file.rows ≡ layout.now }
    ensures { (B.state bank.new).file.rows ≡ layout.now }
{
    if random_load(bank, layout, area, tools).is_ok() {
        steps(bank, layout, area, tools);
    }
}

/// Loads an area, and saves into another.
fn switch<B: Bank>(bank: &mut B, layout: &Layout, from: &Area, to: &mut Area, tools: &mut Tools)
    requires { (B.state bank.old).file.rows ≡ layout.now }
    ensures { (B.state bank.new).file.rows ≡ layout.now }
{
    if from.id == to.id {
        return;
    }
    if random_load(bank, layout, from, tools).is_ok() {
        steps(bank, layout, to, tools);
    }
}

/// Loads an area whose header or MXCSR has a wrong bit, which most loads refuse.
fn spoil<B: Bank>(bank: &mut B, layout: &Layout, area: &mut Area, tools: &mut Tools)
    requires { (B.state bank.old).file.rows ≡ layout.now }
    ensures { (B.state bank.new).file.rows ≡ layout.now }
{
    let at = [26, 512, 520, 528][tools.random.below(4) as usize];
    turn_bit(area, at);
    let _ = random_load(bank, layout, area, tools);
    turn_bit(area, at);
}

/// Turns a bit of an area.
fn turn_bit(area: &mut Area, at: usize) {
    if at < area.bytes.len() {
        area.bytes[at] ^= 8;
    }
}

/// A turn.
fn turn<B: Bank>(side: &mut Side<B>, layout: &Layout)
    requires { (B.state side.old.bank).file.rows ≡ layout.now }
    ensures { (B.state side.new.bank).file.rows ≡ layout.now }
{
    let (bank, tools) = (&mut side.bank, &mut side.tools);
    match tools.random.below(6) {
        0 => stay(bank, layout, &mut side.small, tools),
        1 | 2 => stay(bank, layout, &mut side.large, tools),
        3 => switch(bank, layout, &side.small, &mut side.large, tools),
        4 => switch(bank, layout, &side.large, &mut side.small, tools),
        _ => spoil(bank, layout, &mut side.large, tools),
    }
}

/// Makes an area one without state, in either format.
fn renew(layout: &Layout, area: &mut Area, tools: &mut Tools) {
    if area.bytes.len() < 576 {
        return;
    }
    match tools.random.below(3) {
        0 => make_initial(layout, Class::Small, &mut area.bytes),
        1 => make_initial(layout, Class::Large, &mut area.bytes),
        _ => area.bytes.fill(0),
    }
}

/// Makes one of the areas a new one.
fn renew_one<B: Bank>(side: &mut Side<B>, layout: &Layout) {
    match side.tools.random.below(2) {
        0 => renew(layout, &mut side.small, &mut side.tools),
        _ => renew(layout, &mut side.large, &mut side.tools),
    }
}

/// A machine, a bank that is set up for it and saves, three turns, and a new area.
fn round<B: Bank>(side: &mut Side<B>) {
    let layout = if side.tools.random.below(8) == 0 {
        Layout::avx()
    } else {
        Layout::amx()
    };
    start(&mut side.bank, &layout);
    steps(&mut side.bank, &layout, &mut side.large, &mut side.tools);
    turn(side, &layout);
    turn(side, &layout);
    turn(side, &layout);
    renew_one(side, &layout);
}

/// How often each kind of call has to be answered, and how many saved areas have to stand for registers.
const LEAST: [u32; KINDS] = [400, 400, 400, 400, 400, 400, 400, 400, 400, 400, 5000];

/// Whether each was.
pub fn are_many(answered: &[u32; KINDS]) -> bool {
    for kind in 0..KINDS {
        if answered[kind] < LEAST[kind] {
            return false;
        }
    }
    true
}

/// Whether 1,500 rounds of both banks tell the same.
pub fn tell_the_same<A: Bank, B: Bank>(plain: &mut Side<A>, track: &mut Side<B>) -> bool {
    for _ in 0..1500 {
        round(plain);
        round(track);
        if plain.tools.log.digest != track.tools.log.digest {
            return false;
        }
    }
    true
}
