//! A task.

ghost use Rattle.std.specs.Prelude.{◌≡◌, true, false, length, IfOk, None};
ghost use Rattle.xs_base.specs.declared.class.Class.TheVariants.{Small};
ghost use Rattle.xs_base.specs.Bytes.{zeros};
ghost use Rattle.xs_base.specs.Task.{root_task, frame_length, buffer_length};
ghost use Rattle.xs_task.specs.Parked.{IsParked};
ghost use Rattle.xs_task.specs.TaskArea.{IsTask, IsTaskArea};

use std::alloc::{AllocError, Global};
use xs_area::{Lease, make_initial};
use xs_base::{Class, START_PKRU, clear};
use xs_layout::Layout;

/// The bytes of the memory of a signal frame, with 4 for the second magic word.
const FRAME_BYTES: usize = 16388;

/// The bytes of the buffer for register sets.
const BUFFER_BYTES: usize = 16384;

/// A task as the kernel keeps it (Linux 6.6, arch/x86/include/asm/fpu/types.h, struct fpu, and
/// arch/x86/include/asm/processor.h, struct thread_struct). Between its turns its area and `pkru` stand for its registers.
#[derive(Drop)]
pub struct Task {
    /// The number of its block.
    pub name: u32,
    /// Its save area. None before it is born and after it has ended.
    pub lease: Option<Lease>,
    /// The last processor, whose bank may still hold its registers.
    pub last: Option<u32>,
    /// Its registers are in its area, and not in a bank.
    pub need_load: bool,
    /// PKRU, which no area has.
    pub pkru: u32,
    /// It may use TILEDATA.
    pub permitted: bool,
    /// The memory of its signal frame.
    pub frame: Vec<u8>,
    /// A buffer for register sets.
    pub buffer: Vec<u8>,
    /// A handler runs.
    pub handling: bool,
    /// How many lines it has run.
    pub place: u32,
    /// The place to go back to after the handler.
    pub back: u32,
}

impl Task {
    /// A task that isn't born: it has both its memories, of zeros, and no area. Fails for want of memory alone.
    pub fn open(alloc: Global, name: u32) -> Result<Task, AllocError>
        ensures name { IfOk result (λ task. task.name ≡ name) }
        ensures lease { IfOk result (λ task. task.lease ≡ None) }
        ensures last { IfOk result (λ task. task.last ≡ None) }
        ensures frame { IfOk result (λ task. task.frame.items ≡ zeros frame_length) }
        ensures buffer { IfOk result (λ task. task.buffer.items ≡ zeros buffer_length) }
        ensures frame_len { IfOk result (λ task. length task.frame.items ≡ frame_length) }
        ensures buffer_len { IfOk result (λ task. length task.buffer.items ≡ buffer_length) }
    {
        let frame = zeros_of(alloc, FRAME_BYTES)?;
        let buffer = zeros_of(alloc, BUFFER_BYTES)?;
        Ok(Task {
            name,
            lease: None,
            last: None,
            need_load: true,
            pkru: START_PKRU,
            permitted: false,
            frame,
            buffer,
            handling: false,
            place: 0,
            back: 0,
        })
    }

    /// Makes it a task that no fork has made, before its first turn, with this Small area. Whatever state the area has is lost.
    pub fn born(&mut self, layout: &Layout, lease: Lease)
        requires frame { length self.old.frame.items ≡ frame_length }
        requires buffer { length self.old.buffer.items ≡ buffer_length }
        requires area { IsTaskArea layout.now lease }
        requires small { lease.class ≡ Small }
        ensures whole { IsTask layout.now self.new }
        ensures parked { IsParked layout.now self.new (root_task layout.now) }
        ensures name { self.new.name ≡ self.old.name }
        ensures last { self.new.last ≡ None }
    {
        let mut lease = lease;
        make_initial(layout, Class::Small, &mut lease.area.bytes);
        self.lease = Some(lease);
        self.pkru = START_PKRU;
        self.permitted = false;
        self.renew();
    }

    /// Makes its memories zero and sets it before its first line, with its registers in its area.
    fn renew(&mut self)
        requires frame { length self.old.frame.items ≡ frame_length }
        requires buffer { length self.old.buffer.items ≡ buffer_length }
        ensures frame { self.new.frame.items ≡ zeros frame_length }
        ensures buffer { self.new.buffer.items ≡ zeros buffer_length }
        ensures others { self.new ≡ record self.old { frame = self.new.frame; buffer = self.new.buffer; last = None; need_load = true; handling = false; place = 0; back = 0 } }
    {
        self.clear_memories();
        self.begin();
    }

    /// Makes its memories zero.
    pub(crate) fn clear_memories(&mut self)
        requires frame { length self.old.frame.items ≡ frame_length }
        requires buffer { length self.old.buffer.items ≡ buffer_length }
        ensures frame { self.new.frame.items ≡ zeros frame_length }
        ensures buffer { self.new.buffer.items ≡ zeros buffer_length }
        ensures frame_len { length self.new.frame.items ≡ frame_length }
        ensures buffer_len { length self.new.buffer.items ≡ buffer_length }
        ensures others { self.new ≡ record self.old { frame = self.new.frame; buffer = self.new.buffer } }
    {
        make_zero(&mut self.frame);
        make_zero(&mut self.buffer);
    }

    /// Sets it before its first line, with its registers in its area.
    pub(crate) fn begin(&mut self)
        ensures { self.new ≡ record self.old { last = None; need_load = true; handling = false; place = 0; back = 0 } }
    {
        self.last = None;
        self.need_load = true;
        self.handling = false;
        self.place = 0;
        self.back = 0;
    }
}

/// Makes every byte zero.
#[tactic(auto, using(crate::proofs::MemoryLemmas::all_zero))]
fn make_zero(bytes: &mut [u8])
    ensures zero { bytes.new ≡ zeros (length bytes.old) }
    ensures len { length bytes.new ≡ length bytes.old }
{
    let len = bytes.len();
    clear(bytes, 0, len);
}

/// A vector of `len` zeros.
#[tactic(auto, unfolding(xs_base::specs::Bytes::zeros))]
fn zeros_of(alloc: Global, len: usize) -> Result<Vec<u8>, AllocError>
    ensures zeros { IfOk result (λ v. v.items ≡ zeros len) }
    ensures len { IfOk result (λ v. length v.items ≡ len) }
{
    vec![in alloc; 0u8; len]
}
