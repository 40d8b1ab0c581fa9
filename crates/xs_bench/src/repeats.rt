//! The calls, each made many times. Each turn changes eight bytes of what the call reads, and takes a byte of what it
//! wrote into a sum, so that no compiler leaves a call out.

ghost use Rattle.std.specs.Prelude.{◌≡◌, ◌+◌, ◌≤◌, length};
ghost use Rattle.xs_base.specs.Header as header;

use crate::banks::repeat_bank_call;
use crate::command::{BankCall, BankKind, Call, LayerCall};
use crate::growing::repeat_grow;
use crate::inputs::Inputs;
use crate::lines::{repeat_line_copies, repeat_writes};
use crate::sets::{repeat_get, repeat_set};
use crate::signals::repeat_signal_call;
use std::alloc::{AllocError, Global};
use xs_area::{Area, Origin, compact_of, copy_area, read_standard, standard_of, stands, xstate_bv};
use xs_bank::{Bank, PlainBank, TrackBank};
use xs_base::{Comp, Features, Lane, put, put_number};
use xs_layout::Layout;
use xs_regs::{File, place_of};

/// The byte of an image or an area that a turn changes: the first of XMM0.
const CHANGED: usize = 160;

/// How many bytes of an output are looked at in turn.
const LOOKED_AT: u64 = 8192;

/// Half of the numbers of 64 bits.
const HALF: u64 = 0x8000_0000_0000_0000;

/// Makes a call so many times over the machine `amx`, and answers the sum; None where its inputs don't meet its
/// conditions.
pub fn repeat(alloc: Global, call: Call, turns: u64) -> Result<Option<u64>, AllocError> {
    match call {
        Call::Layer(LayerCall::WriteEvent) => repeat_writes(alloc, turns),
        Call::Layer(LayerCall::CopyEvent) => repeat_line_copies(alloc, turns),
        Call::Layer(LayerCall::GetXstate) => repeat_get(alloc, turns),
        Call::Layer(LayerCall::SetXstate) => repeat_set(alloc, turns),
        Call::Layer(LayerCall::Grow) => repeat_grow(alloc, turns),
        Call::Layer(call) => repeat_on_inputs(alloc, call, turns),
        Call::Bank(BankKind::Plain, call) => {
            repeat_on_bank(alloc, PlainBank::new(alloc), call, turns)
        }
        Call::Bank(BankKind::Track, call) => {
            repeat_on_bank(alloc, TrackBank::new(alloc), call, turns)
        }
        Call::Signal(call, class) => repeat_signal_call(alloc, call, class, turns),
    }
}

/// Makes a call without a bank so many times.
fn repeat_on_inputs(alloc: Global, call: LayerCall, turns: u64) -> Result<Option<u64>, AllocError> {
    let mut inputs = Inputs::new(alloc)?;
    Ok(repeat_layer_call(&mut inputs, call, turns))
}

/// Makes an instruction of a bank so many times, where there was memory for the bank.
fn repeat_on_bank<B: Bank>(
    alloc: Global,
    bank: Result<B, AllocError>,
    call: BankCall,
    turns: u64,
) -> Result<Option<u64>, AllocError> {
    let mut bank = bank?;
    let mut inputs = Inputs::new(alloc)?;
    Ok(repeat_bank_call(&mut bank, &mut inputs, call, turns))
}

/// Makes the call so many times over these inputs.
fn repeat_layer_call(inputs: &mut Inputs, call: LayerCall, turns: u64) -> Option<u64> {
    let layout = &inputs.layout;
    let (image, out) = (inputs.image.as_mut_slice(), inputs.out.as_mut_slice());
    let (area, other) = (&mut inputs.area, &mut inputs.other);
    match call {
        LayerCall::StandardInto => repeat_standard_into(&mut inputs.file, out, turns),
        LayerCall::StandardOf => repeat_standard_of(layout, area, out, turns),
        LayerCall::CompactOf => repeat_compact_of(layout, image, area, turns),
        LayerCall::CopyArea => repeat_copy_area(layout, area, other, turns),
        LayerCall::Copy => repeat_copy(image, out, 0, 11008, turns),
        LayerCall::CopyCompacted => repeat_copy(&mut area.bytes, &mut other.bytes, 0, 10688, turns),
        LayerCall::CopySmall => repeat_copy(image, out, 0, 2816, turns),
        LayerCall::CopyOne => repeat_copy(image, out, 128, 320, turns),
        LayerCall::CopyHeader => repeat_copy(image, out, 128, 64, turns),
        _ => repeat_nothing(image, out, turns),
    }
}

/// A length with the turn's highest bit added, so that the compiler can't know it and copies as for any length.
pub fn hidden(len: usize, turn: u64) -> usize
    requires { len ≤ 16384 }
    ensures low { len ≤ result }
    ensures high { result ≤ len + 1 }
{
    len + (turn / HALF) as usize
}

/// The sum with the byte of an output at a place, or 0 past its end.
pub fn next_sum(sum: u64, out: &[u8], at: usize) -> u64 {
    let byte = match out.get(at) {
        Some(byte) => *byte,
        None => 0,
    };
    sum.wrapping_mul(31).wrapping_add(u64::from(byte))
}

/// The sum with a byte of an output.
pub fn sum_with(sum: u64, out: &[u8], turn: u64) -> u64
    requires { 8192 ≤ length out.now }
{
    sum.wrapping_mul(31)
        .wrapping_add(u64::from(out[(turn % LOOKED_AT) as usize]))
}

/// `File::standard_into` of all components.
fn repeat_standard_into(file: &mut File, out: &mut [u8], turns: u64) -> Option<u64> {
    let layout = *file.layout();
    let mask = layout.features();
    let place = place_of("xmm0", &layout)?;
    if out.len() < 8192 || out.len() < layout.standard_size(mask) as usize || place.len != 16 {
        return None;
    }
    let mut sum = 0;
    'turns: for turn in 0..turns {
        file.write(place, &Lane::from_slice(&u128::from(turn).to_le_bytes()));
        file.standard_into(mask, out);
        sum = sum_with(sum, out, turn);
    }
    Some(sum)
}

/// `standard_of` of a compacted area into all components.
fn repeat_standard_of(layout: &Layout, area: &mut Area, out: &mut [u8], turns: u64) -> Option<u64> {
    let mask = layout.features();
    if out.len() < 8192
        || out.len() < layout.standard_size(mask) as usize
        || !stands(layout, area)
    {
        return None;
    }
    let mut sum = 0;
    'turns: for turn in 0..turns {
        change_area(area, turn);
        standard_of(layout, area, 0x5555_5554, mask, out);
        sum = sum_with(sum, out, turn);
    }
    Some(sum)
}

/// `compact_of` of an image with all components into a compacted area.
fn repeat_compact_of(
    layout: &Layout,
    image: &mut [u8],
    area: &mut Area,
    turns: u64,
) -> Option<u64> {
    if image.len() < layout.full_size() as usize
        || area.bytes.len() < 8192
        || !stands(layout, area)
    {
        return None;
    }
    let parts = read_standard(layout, image, layout.features(), Origin::Regset).ok()?;
    let bits = Features(xstate_bv(&area.bytes));
    if !bits.has(Comp(1)) || parts.bits.0 != bits.0 | Features::PKRU.0 {
        return None;
    }
    let mut sum = 0;
    'turns: for turn in 0..turns {
        change(image, turn);
        compact_of(layout, image, &parts, area);
        sum = sum_with(sum, &area.bytes, turn);
    }
    Some(sum)
}

/// `copy_area` of a compacted area into another.
fn repeat_copy_area(layout: &Layout, from: &mut Area, to: &mut Area, turns: u64) -> Option<u64> {
    if to.bytes.len() < 8192 || !stands(layout, from) {
        return None;
    }
    let mut sum = 0;
    'turns: for turn in 0..turns {
        change_area(from, turn);
        copy_area(layout, from, to);
        sum = sum_with(sum, &to.bytes, turn);
    }
    Some(sum)
}

/// A plain copy of so many bytes from a byte on.
fn repeat_copy(from: &mut [u8], to: &mut [u8], at: usize, len: usize, turns: u64) -> Option<u64>
    requires at { at ≤ 16384 }
    requires len { len ≤ 16384 }
{
    if from.len() < 8192 || to.len() < 8192 || from.len() < at + len || to.len() < at + len {
        return None;
    }
    let mut sum = 0;
    'turns: for turn in 0..turns {
        change(from, turn);
        let end = (at + hidden(len, turn)).min(from.len()).min(to.len());
        to[at..end].copy_from_slice(&from[at..end]);
        sum = sum_with(sum, to, turn);
    }
    Some(sum)
}

/// No call.
fn repeat_nothing(from: &mut [u8], to: &[u8], turns: u64) -> Option<u64> {
    if from.len() < 8192 || to.len() < 8192 {
        return None;
    }
    let mut sum = 0;
    'turns: for turn in 0..turns {
        change(from, turn);
        sum = sum_with(sum, to, turn);
    }
    Some(sum)
}

/// Changes eight bytes of an area, of its legacy region.
fn change_area(area: &mut Area, turn: u64)
    requires { 576 ≤ length area.old.bytes.items }
    ensures len { length area.new.bytes.items ≡ length area.old.bytes.items }
    ensures bits { header.xstate_bv area.new.bytes.items ≡ header.xstate_bv area.old.bytes.items }
    ensures names { header.xcomp_bv area.new.bytes.items ≡ header.xcomp_bv area.old.bytes.items }
{
    change(&mut area.bytes, turn);
}

/// Changes eight bytes of an image or an area, of its legacy region.
pub fn change(bytes: &mut [u8], turn: u64)
    requires { 576 ≤ length bytes.old }
    ensures len { length bytes.new ≡ length bytes.old }
    ensures bits { header.xstate_bv bytes.new ≡ header.xstate_bv bytes.old }
    ensures names { header.xcomp_bv bytes.new ≡ header.xcomp_bv bytes.old }
{
    put(bytes, CHANGED, &turn.to_le_bytes());
}

/// Writes XSTATE_BV of an area (SDM volume 1, 13.4.2).
pub fn put_state(bytes: &mut [u8], bits: Features)
    requires { 576 ≤ length bytes.old }
    ensures len { length bytes.new ≡ length bytes.old }
    ensures names { header.xcomp_bv bytes.new ≡ header.xcomp_bv bytes.old }
{
    put_number(bytes, 512, bits.0);
}
