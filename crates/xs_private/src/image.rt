//! Images in the standard format, from frames and register sets, into register files.

ghost use Rattle.std.specs.Prelude.{◌≡◌, ℕ, ◌+◌, ◌<◌, ◌≤◌, true, length};
ghost use Rattle.xs_base.specs.Component.{component_count, component_size, pkru_number};
ghost use Rattle.xs_base.specs.File.{initial_file, part, with_part};
ghost use Rattle.xs_base.specs.Header.{mxcsr};
ghost use Rattle.xs_base.specs.Image.{image_file, image_part, taken_part};
ghost use Rattle.xs_base.specs.Layout.{full_size, has_row};
ghost use Rattle.xs_base.specs.RegisterSet.{fx_file};

use crate::file::COMPONENTS;
use xs_base::{Comp, Parts};
use xs_layout::component_size;
use xs_regs::File;

/// Gives a file the registers of an image: the components in its bits come from their standard places, every other one is
/// initial, and PKRU and MXCSR are those of the parts (SDM volume 1, 13.4; Linux 6.6, arch/x86/kernel/fpu/xstate.c,
/// copy_uabi_to_xstate).
pub fn take_image(file: &mut File, bytes: &[u8], parts: &Parts)
    requires room { full_size file.old.rows ≤ length bytes.now }
    ensures { file.new ≡ image_file (initial_file file.old.rows) bytes.now parts.now }
{
    let layout = *file.layout();
    file.set_up(&layout);
    'parts: for c in 0..COMPONENTS {
        take_part(file, bytes, parts, Comp(c));
    }
    file.set_pkru(parts.pkru);
    file.set_mxcsr(parts.mxcsr);
    // It is a file of the machine.
    let _ = file.layout();
}

/// Takes one component of an image where its bits have it, but for PKRU, which the parts have as a number.
fn take_part(file: &mut File, bytes: &[u8], parts: &Parts, c: Comp)
    requires number { c.0 < component_count }
    requires room { full_size file.old.rows ≤ length bytes.now }
    ensures machine { file.new.rows ≡ file.old.rows }
    ensures taken { (c.0 ≡ pkru_number → ⊥) → part file.new c.0 ≡ image_part file.old bytes.now parts.now c.0 }
    ensures others { (d : ℕ) → (d ≡ c.0 → ⊥) → part file.new d ≡ part file.old d }
{
    let layout = *file.layout();
    if let Some(row) = layout.row(c) {
        if parts.bits.has(c) {
            take_at(file, bytes, c, row.offset as usize);
        }
    }
}

/// Takes a component of the machine from where it stands in the bytes.
fn take_at(file: &mut File, bytes: &[u8], c: Comp, at: usize)
    requires number { c.0 < component_count }
    requires there { has_row file.old.rows c.0 ≡ true }
    requires within { at + component_size c.0 ≤ length bytes.now }
    ensures taken { file.new ≡ with_part file.old c.0 (taken_part bytes.now at c.0) }
{
    // Both are files of the machine.
    let _ = file.layout();
    file.load(c, &bytes[at..at + component_size(c) as usize]);
    let _ = file.layout();
}

/// Gives a file x87, the XMM registers and MXCSR of the 512 bytes of an Fx set, and keeps its other registers (SDM volume 1,
/// 10.5.1; Linux 6.6, arch/x86/kernel/fpu/regset.c, xfpregs_set).
pub fn take_legacy(file: &mut File, bytes: &[u8], control: u32)
    requires count { length bytes.now ≡ 512 }
    requires control { control ≡ mxcsr bytes.now }
    ensures { file.new ≡ fx_file file.old bytes.now }
{
    // The machine has x87 and SSE.
    let _ = file.layout();
    take_at(file, bytes, Comp::X87, 0);
    take_at(file, bytes, Comp::SSE, 160);
    file.set_mxcsr(control);
}
