//! Register files of tasks: how they begin, copies of them, and the marks that follow from them.

ghost use Rattle.std.specs.Prelude.{◌≡◌, ℕ, ◌<◌, ◌&&◌, ◌||◌, ◌==◌, not, length, slice_index, IfOk};
ghost use Rattle.xs_base.specs.Bytes.{zeros};
ghost use Rattle.xs_base.specs.Component.{component_count, initial_mxcsr, pkru_number};
ghost use Rattle.xs_base.specs.File.{in_use, part};
ghost use Rattle.xs_base.specs.Sets.{has};
ghost use Rattle.xs_base.specs.Task as tasks;
ghost use Rattle.xs_private.specs.Marks as marks;

use std::alloc::{AllocError, Global};
use xs_base::{Class, Comp, Features, INITIAL_MXCSR, START_PKRU, clear};
use xs_image::user_features;
use xs_layout::Layout;
use xs_regs::File;

/// How many numbers of components there are.
pub const COMPONENTS: u8 = 19;

/// The registers of a task before its first turn.
pub fn start_file(alloc: Global, layout: &Layout) -> Result<File, AllocError>
    ensures { IfOk result (λ file. file ≡ tasks.start_file layout.now) }
{
    let mut file = File::initial(alloc, layout)?;
    file.set_pkru(START_PKRU);
    Ok(file)
}

/// Makes every register initial but PKRU, which is that of a start.
pub fn start_again(file: &mut File)
    ensures { file.new ≡ tasks.start_file file.old.rows }
{
    let layout = *file.layout();
    file.set_up(&layout);
    file.set_pkru(START_PKRU);
}

/// So many bytes of zero.
#[tactic(auto, unfolding(xs_base::specs::Bytes::zeros))]
pub fn zeroed(alloc: Global, len: usize) -> Result<Vec<u8>, AllocError>
    ensures { IfOk result (λ bytes. bytes.items ≡ zeros len) }
{
    vec![in alloc; 0u8; len]
}

/// Makes all of so many bytes zero.
pub fn clear_all(bytes: &mut Vec<u8>, len: usize)
    requires { length bytes.old.items ≡ len }
    ensures { bytes.new.items ≡ zeros len }
{
    clear(bytes, 0, len);
}

/// Makes a file the copy of another one of the same machine.
pub fn copy_file(from: &File, to: &mut File)
    requires machine { to.old.rows ≡ from.now.rows }
    requires bytes { (k : ℕ) → slice_index (part from.now pkru_number) k < 256 }
    ensures { to.new ≡ from.now }
{
    // Both are files of the machine.
    let _ = from.layout();
    'parts: for c in 0..COMPONENTS {
        copy_part(from, to, Comp(c));
    }
    to.set_pkru(from.pkru());
    to.set_mxcsr(from.mxcsr());
    let _ = to.layout();
}

/// Copies one component, but for PKRU. What the machine lacks is initial in both files.
fn copy_part(from: &File, to: &mut File, c: Comp)
    requires number { c.0 < component_count }
    requires machine { to.old.rows ≡ from.now.rows }
    ensures machine { to.new.rows ≡ to.old.rows }
    ensures copied { (c.0 ≡ pkru_number → ⊥) → part to.new c.0 ≡ part from.now c.0 }
    ensures others { (d : ℕ) → (d ≡ c.0 → ⊥) → part to.new d ≡ part to.old d }
{
    if c != Comp::PKRU && from.layout().has_row(c) {
        to.load(c, from.part(c));
    }
    let _ = to.layout();
}

/// The components that a task may use, by whether it has room for TILEDATA.
pub fn user_of(layout: &Layout, large: bool) -> Features
    ensures { result.0 ≡ marks.user_of layout.now large }
{
    if large {
        user_features(layout, Class::Large)
    } else {
        user_features(layout, Class::Small)
    }
}

/// Whether SSE is saved within these components: an XMM register is in use, or MXCSR isn't initial.
fn saves_sse(file: &File, user: Features) -> bool
    ensures { result ≡ ((has user.0 1 && in_use file.now 1) || (not (file.now.mxcsr == initial_mxcsr) && has user.0 1)) }
{
    if file.in_use_of(user).has(Comp::SSE) {
        return true;
    }
    file.mxcsr() != INITIAL_MXCSR && user.has(Comp::SSE)
}

/// The marks after a turn: the components in use within what the task may use, with bit 1 also where MXCSR isn't initial, and PKRU
/// where it isn't zero (this project's own).
pub fn marks_after(file: &File, large: bool) -> Features
    ensures { result.0 ≡ marks.marks_of file.now large }
{
    let user = user_of(file.layout(), large);
    let sse = saves_sse(file, user);
    let pkru = file.pkru() != 0;
    file.in_use_of(user)
        .with(Comp::SSE, sse)
        .with(Comp::PKRU, pkru)
}
