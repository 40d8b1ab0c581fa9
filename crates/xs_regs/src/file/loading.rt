//! Changes of whole components of a register file: loads, resets, PKRU and MXCSR.

ghost use Rattle.std.specs.Prelude.{◌≡◌, ℕ, ◌<◌, ◌≤◌, ◌&&◌, ◌==◌, true, false, not, length, if◌then◌else◌};
ghost use Rattle.xs_base.specs.Component.{component_count, component_size, initial_part};
ghost use Rattle.xs_base.specs.File.{IsFile, with_part, pkru_of, with_pkru, initial_file, in_use};
ghost use Rattle.xs_base.specs.Layout.{has_row};
ghost use Rattle.xs_base.specs.Sets.{has};
ghost use Rattle.xs_regs.specs.Loads.{IsPartLoaded, IsCleanCopy};
ghost use Rattle.std.specs.Str.{bytes_eq};

use super::{COMPONENTS, File, is_initial, put_register};
use xs_base::{Comp, Features, INITIAL_MXCSR, clean, pkru_bytes, put_initial};
use xs_layout::{Layout, component_size};

impl File {
    /// Takes the bytes of a component of the machine. What belongs to no register isn't taken, and every other component
    /// and MXCSR stay.
    pub fn load(&mut self, c: Comp, bytes: &[u8])
        requires number { c.0 < component_count }
        requires there { has_row self.old.rows c.0 ≡ true }
        requires len { length bytes.now ≡ component_size c.0 }
        ensures { IsPartLoaded c.0 bytes.now self.old self.new }
    {
        let used = put_cleaned(&mut self.parts[c.0 as usize], c, bytes);
        self.used = self.used.with(c, used);
    }

    /// Makes a component initial. A component that the machine lacks is so already.
    pub fn reset(&mut self, c: Comp)
        requires { c.0 < component_count }
        ensures written { self.new ≡ with_part self.old c.0 (initial_part c.0) }
        ensures file { IsFile self.new }
    {
        // Where it isn't in use it is initial already. PKRU may have state on a machine that lacks it.
        if !self.used.has(c) && c != Comp::PKRU {
            return;
        }
        put_initial_part(&mut self.parts[c.0 as usize], c);
        self.used = self.used.with(c, false);
    }

    /// Makes every component initial, and the machine another one.
    pub fn set_up(&mut self, layout: &Layout)
        ensures { self.new ≡ initial_file layout.now }
    {
        'parts: for c in 0..COMPONENTS {
            self.reset(Comp(c));
        }
        // The rows pass every test of a table.
        let _ = layout.len();
        self.layout = *layout;
        self.mxcsr = INITIAL_MXCSR;
        self.used = Features(0);
    }

    /// PKRU, which every file has (SDM volume 1, 13.5.7).
    #[tactic(auto, using(xs_base::proofs::ComponentLemmas::pkru_size))]
    pub fn pkru(&self) -> u32
        ensures { result ≡ pkru_of self.now }
    {
        let bytes = self.part(Comp::PKRU);
        u32::from_le_bytes([bytes[0], bytes[1], bytes[2], bytes[3]])
    }

    /// Writes PKRU. Nothing else changes.
    pub fn set_pkru(&mut self, value: u32)
        ensures { self.new ≡ with_pkru self.old value }
    {
        let used = put_register(
            &mut self.parts[Comp::PKRU.0 as usize],
            Comp::PKRU,
            0,
            &pkru_bytes(value),
        );
        self.used = with_row(self.used, &self.layout, Comp::PKRU, used);
    }

    /// Writes MXCSR. Nothing else changes.
    #[tactic(auto, using(xs_base::proofs::FileLemmas::with_control))]
    pub fn set_mxcsr(&mut self, value: u32)
        ensures { self.new ≡ record self.old { mxcsr = value } }
    {
        self.mxcsr = value;
    }

    /// The components of the mask that aren't in their initial configuration. MXCSR doesn't count.
    pub fn in_use_of(&self, mask: Features) -> Features
        ensures each { (c : ℕ) → has result.0 c ≡ (has mask.0 c && in_use self.now c) }
        ensures above { (c : ℕ) → component_count ≤ c → has result.0 c ≡ false }
    {
        // The rows pass every test of a table.
        let _ = self.layout();
        Features(mask.0 & self.used.0)
    }
}

/// Writes a component over bytes of its size, and answers whether it is then not initial. What belongs to no register is
/// zero.
#[tactic(auto, using(crate::proofs::Loads::clean_copy))]
fn put_cleaned(out: &mut [u8], c: Comp, bytes: &[u8]) -> bool
    requires whole { length out.old ≡ component_size c.0 }
    requires len { length bytes.now ≡ component_size c.0 }
    ensures copy { IsCleanCopy c.0 bytes.now out.new }
    ensures used { result ≡ not (bytes_eq out.new (initial_part c.0)) }
{
    out.copy_from_slice(bytes);
    clean(out, 0, c);
    !is_initial(out, c)
}

/// Writes the initial configuration over bytes of a component's size.
fn put_initial_part(out: &mut [u8], c: Comp)
    requires number { c.0 < component_count }
    requires whole { length out.old ≡ component_size c.0 }
    ensures { out.new ≡ initial_part c.0 }
{
    put_initial(out, 0, c, component_size(c) as usize);
}

/// The set, with or without the component; without it where the machine lacks it.
fn with_row(set: Features, layout: &Layout, c: Comp, wanted: bool) -> Features
    requires { c.0 < 64 }
    ensures { (d : ℕ) → has result.0 d ≡ (if d == c.0 then has_row layout.now c.0 && wanted else has set.0 d) }
{
    set.with(c, layout.has_row(c) && wanted)
}
