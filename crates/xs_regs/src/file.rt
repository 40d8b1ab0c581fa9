//! Register files.

ghost use Rattle.std.specs.Prelude.{◌≡◌, ℕ, ◌+◌, ◌<◌, ◌≤◌, ◌==◌, false, not, List, length, slice_index, IfOk};
ghost use Rattle.std.specs.Str.{bytes_eq};
ghost use Rattle.xs_base.specs.Component.{component_count, component_size, initial_part};
ghost use Rattle.xs_base.specs.File.{IsFile, part, initial_file, is_mxcsr, read_place, write_place, in_use};
ghost use Rattle.xs_base.specs.Layout.{standard_size};
ghost use Rattle.xs_base.specs.Register.{IsRegister};
ghost use Rattle.xs_base.specs.Sets.{has};
ghost use Rattle.xs_base.specs.Standard.{IsStandard, component_byte, saved_byte};
ghost use Rattle.xs_base.specs.Bytes.{splice};

mod loading;

use std::alloc::{AllocError, Global};
use std::marker::Model;
use xs_base::{
    Comp, Features, INITIAL_MXCSR, Lane, Place, are_zero, put, put_component, put_control,
    put_initial,
};
use xs_layout::{Layout, component_size};

/// How many numbers of components there are, those that no machine here has included.
const COMPONENTS: u8 = 19;

/// The registers of one processor or one task: the bytes of every component, by its number, and MXCSR beside them.
/// Contracts see the record `File`. What belongs to no register is zero, and what the machine lacks is initial. Which
/// components are in use is kept beside, so that no save has to look through their bytes.
#[derive(Drop)]
pub struct File {
    layout: Layout,
    parts: Vec<Vec<u8>>,
    mxcsr: u32,
    used: Features,
}

impl Model for File {
    ghost use Rattle.std.specs.Prelude.{map};
    ghost use Rattle.xs_base.specs.File as files;
    ghost use Rattle.xs_regs.specs.Used.{HasUsed};

    ghost Value = { files.File };

    ghost view = { λ f. record { rows = f.layout; parts = map (λ p. p.items) f.parts.items; mxcsr = f.mxcsr } };

    ghost invariant = { λ f. files.IsFile (record { rows = f.layout; parts = map (λ p. p.items) f.parts.items; mxcsr = f.mxcsr })
        × HasUsed (record { rows = f.layout; parts = map (λ p. p.items) f.parts.items; mxcsr = f.mxcsr }) f.used.0 };
}

impl File {
    /// The file whose every component is in its initial configuration (SDM volume 1, 13.6). Fails for want of memory
    /// alone; no other call takes memory.
    pub fn initial(alloc: Global, layout: &Layout) -> Result<File, AllocError>
        ensures { IfOk result (λ file. file ≡ initial_file layout.now) }
    {
        // The rows pass every test of a table.
        let _ = layout.len();
        let mut parts = Vec::new(alloc);
        'parts: for c in 0..COMPONENTS {
            parts.push(make_part(alloc, Comp(c))?)?;
        }
        Ok(File {
            layout: *layout,
            parts,
            mxcsr: INITIAL_MXCSR,
            used: Features(0),
        })
    }

    /// The machine whose file this is.
    pub fn layout(&self) -> &Layout
        ensures rows { result.now ≡ self.now.rows }
        ensures file { IsFile self.now }
    {
        &self.layout
    }

    /// MXCSR.
    pub fn mxcsr(&self) -> u32
        ensures { result ≡ self.now.mxcsr }
    {
        self.mxcsr
    }

    /// The bytes of the component, as many as it has on any machine. The number is below 19.
    pub fn part(&self, c: Comp) -> &[u8]
        requires { c.0 < component_count }
        ensures bytes { result.now ≡ part self.now c.0 }
        ensures len { length result.now ≡ component_size c.0 }
    {
        &self.parts[c.0 as usize]
    }

    /// The bytes of a register of the machine, 1 to 64.
    pub fn read(&self, place: Place) -> Lane
        requires { (name : List ℕ) × IsRegister self.now.rows name place }
        ensures { result ≡ read_place self.now place }
    {
        if place.is_mxcsr() {
            return Lane::from_slice(&self.mxcsr.to_le_bytes());
        }
        let (_, from) = self.part(place.comp).split_at(place.offset as usize);
        let (register, _) = from.split_at(place.len as usize);
        Lane::from_slice(register)
    }

    /// Writes a register of the machine, whose every byte the lane has. Nothing else changes.
    pub fn write(&mut self, place: Place, lane: &Lane)
        requires register { (name : List ℕ) × IsRegister self.old.rows name place }
        requires len { length lane.now ≡ place.len }
        ensures written { self.new ≡ write_place self.old place lane.now }
        ensures machine { self.new.rows ≡ self.old.rows }
    {
        let bytes = lane.as_slice();
        if place.is_mxcsr() {
            self.mxcsr = u32::from_le_bytes([bytes[0], bytes[1], bytes[2], bytes[3]]);
        } else {
            let used = put_register(
                &mut self.parts[place.comp.0 as usize],
                place.comp,
                place.offset as usize,
                bytes,
            );
            self.used = self.used.with(place.comp, used);
        }
    }

    /// The components that aren't in their initial configuration. MXCSR doesn't count.
    pub fn in_use(&self) -> Features
        ensures each { (c : ℕ) → has result.0 c ≡ in_use self.now c }
        ensures above { (c : ℕ) → component_count ≤ c → has result.0 c ≡ false }
    {
        // The rows pass every test of a table.
        let _ = self.layout();
        self.used
    }

    /// Writes the file's components of the mask in the standard format, each at its place, and MXCSR with its mask where
    /// SSE or AVX is in the mask (SDM volume 1, 13.4 and 13.7). Every other byte stays.
    pub fn standard_into(&self, mask: Features, out: &mut [u8])
        requires { standard_size self.now.rows mask.0 ≤ length out.old }
        ensures { IsStandard self.now mask.0 out.old out.new }
    {
        self.components_into(mask, out);
        if mask.has_control() {
            put_control(out, self.mxcsr);
        }
    }

    /// Writes the components of the mask, each at its place in the standard format. Bytes 24 to 31 stay.
    fn components_into(&self, mask: Features, out: &mut [u8])
        requires { standard_size self.now.rows mask.0 ≤ length out.old }
        ensures len { length out.new ≡ length out.old }
        ensures each { (k : ℕ) → slice_index out.new k ≡ component_byte (saved_byte self.now) (λ r. r.offset) mask.0 k self.now.rows (slice_index out.old k) }
    {
        let layout = self.layout();
        'rows: for i in 0..layout.len() {
            let row = layout.row_at(i);
            if mask.has(row.comp) {
                put_component(out, row.offset as usize, row.comp, self.part(row.comp));
            }
        }
    }
}

/// Writes a register over bytes of a component, from byte `at` on, and answers whether the component is then not initial.
fn put_register(out: &mut [u8], c: Comp, at: usize, bytes: &[u8]) -> bool
    requires size { length out.old ≡ component_size c.0 }
    requires fits { at + length bytes.now ≤ length out.old }
    ensures written { out.new ≡ splice at bytes.now out.old }
    ensures used { result ≡ not (bytes_eq out.new (initial_part c.0)) }
{
    put(out, at, bytes);
    !is_initial(out, c)
}

/// Whether these are the initial bytes of the component.
fn is_initial(bytes: &[u8], c: Comp) -> bool
    requires { length bytes.now ≡ component_size c.0 }
    ensures { result ≡ bytes_eq bytes.now (initial_part c.0) }
{
    if c == Comp::X87 {
        let (control, others) = bytes.split_at(2);
        control == [0x7f, 0x03].as_slice() && are_zero(others)
    } else {
        are_zero(bytes)
    }
}

/// The initial bytes of the component.
fn make_part(alloc: Global, c: Comp) -> Result<Vec<u8>, AllocError>
    requires { c.0 < component_count }
    ensures { IfOk result (λ bytes. bytes.items ≡ initial_part c.0) }
{
    let size = component_size(c) as usize;
    let mut bytes = Vec::new(alloc);
    bytes.resize(size, 0)?;
    put_initial(&mut bytes, 0, c, size);
    Ok(bytes)
}
