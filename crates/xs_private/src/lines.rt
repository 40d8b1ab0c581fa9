//! What a line of a task reads and writes: registers, tiles and the two memories.

ghost use Rattle.std.specs.Prelude.{◌≡◌, ◌+◌, ◌≤◌, List, ℕ, length, slice_range};
ghost use Rattle.xs_base.specs.declared.component.Place.{Place};
ghost use Rattle.xs_base.specs.Bytes.{splice};
ghost use Rattle.xs_base.specs.File.{read_place, write_place};
ghost use Rattle.xs_base.specs.Register.{IsRegister, place_of};
ghost use Rattle.xs_base.specs.Tile as tiles;
ghost use Rattle.xs_base.specs.Tile.{feature_error, raises_nm, released_file};

use crate::private::Private;
use xs_base::{Comp, Errno, Lane, Place, put};
use xs_layout::Layout;
use xs_regs::place_of_bytes;

/// How many numbers of components there are.
const COMPONENTS: u32 = 19;

/// The number of TILEDATA.
const TILEDATA: u32 = 18;

impl Private {
    /// The bytes of a register of the machine.
    pub fn read(&self, reg: &[u8]) -> Lane
        requires { (place : Place) × IsRegister self.now.file.rows reg.now place }
        ensures { result ≡ read_place self.now.file (place_of reg.now) }
    {
        let place = place_in(self.file.layout(), reg);
        self.file.read(place)
    }

    /// Writes a register of the machine, whose every byte the lane has.
    pub fn write(&mut self, reg: &[u8], bytes: &Lane)
        requires register { (place : Place) × IsRegister self.old.file.rows reg.now place }
        requires fits { length bytes.now ≡ (place_of reg.now).len }
        ensures { self.new ≡ record self.old { file = write_place self.old.file (place_of reg.now) bytes.now } }
    {
        let place = place_in(self.file.layout(), reg);
        self.file.write(place, bytes);
    }

    /// Whether a read or a write of the register raises #NM.
    pub fn traps(&self, reg: &[u8], is_write: bool) -> bool
        requires { (place : Place) × IsRegister self.now.file.rows reg.now place }
        ensures { result ≡ raises_nm self.now (place_of reg.now) is_write }
    {
        let layout = self.file.layout();
        layout.has_row(Comp::TILEDATA)
            && !self.large
            && is_of_tiles(place_in(layout, reg), is_write)
    }

    /// The tiles and their configuration become initial.
    pub fn release_tiles(&mut self)
        ensures { self.new ≡ record self.old { file = released_file self.old.file } }
    {
        self.file.reset(Comp::TILECFG);
        self.file.reset(Comp::TILEDATA);
    }

    /// The error of a request for leave to use this component.
    pub fn request_error(&self, feature: u32) -> Option<Errno>
        ensures { result ≡ feature_error self.now.file.rows feature }
    {
        if feature >= COMPONENTS {
            return Some(Errno::Invalid);
        }
        if feature != TILEDATA || !self.file.layout().has_row(Comp::TILEDATA) {
            return Some(Errno::NotSupported);
        }
        None
    }

    /// Bytes of the frame memory, at most 64.
    pub fn peek_frame(&self, at: u32, len: u32) -> Lane
        requires inside { at + len ≤ length self.now.frame }
        requires few { len ≤ 64 }
        ensures { result ≡ slice_range self.now.frame at (at + len) }
    {
        bytes_at(&self.frame, at, len)
    }

    /// Bytes of the buffer, at most 64.
    pub fn peek_buffer(&self, at: u32, len: u32) -> Lane
        requires inside { at + len ≤ length self.now.buffer }
        requires few { len ≤ 64 }
        ensures { result ≡ slice_range self.now.buffer at (at + len) }
    {
        bytes_at(&self.buffer, at, len)
    }

    /// Writes the lane over the frame memory from byte `at` on.
    pub fn poke_frame(&mut self, at: u32, lane: &Lane)
        requires { at + length lane.now ≤ length self.old.frame }
        ensures { self.new ≡ record self.old { frame = splice at lane.now self.old.frame } }
    {
        put(&mut self.frame, at as usize, lane.as_slice());
    }

    /// Writes the lane over the buffer from byte `at` on.
    pub fn poke_buffer(&mut self, at: u32, lane: &Lane)
        requires { at + length lane.now ≤ length self.old.buffer }
        ensures { self.new ≡ record self.old { buffer = splice at lane.now self.old.buffer } }
    {
        put(&mut self.buffer, at as usize, lane.as_slice());
    }
}

/// Where a register of the machine stands.
fn place_in(layout: &Layout, reg: &[u8]) -> Place
    requires { (place : Place) × IsRegister layout.now reg.now place }
    ensures register { IsRegister layout.now reg.now result }
    ensures place { result ≡ place_of reg.now }
{
    match place_of_bytes(reg, layout) {
        Some(place) => place,
        None => unreachable!(),
    }
}

/// Whether an instruction that reads or writes this place is one of the tiles.
fn is_of_tiles(place: Place, is_write: bool) -> bool
    ensures { result ≡ tiles.is_of_tiles place is_write }
{
    place.comp == Comp::TILEDATA || (is_write && place.comp == Comp::TILECFG)
}

/// Bytes of a memory, at most 64.
fn bytes_at(memory: &[u8], at: u32, len: u32) -> Lane
    requires inside { at + len ≤ length memory.now }
    requires few { len ≤ 64 }
    ensures { result ≡ slice_range memory.now at (at + len) }
{
    let from = at as usize;
    Lane::from_slice(&memory[from..from + len as usize])
}
