//! The pool.

ghost use Rattle.std.specs.Prelude.{◌≡◌, ℕ, ◌-◌, ◌^◌, ◌<◌, ◌≤◌, ◌⊎◌, ◌↔◌, false, true, length, slice_index, IfOk, IfErr, OnOk, OnErr};
ghost use Rattle.xs_base.specs.Area.{StandsFor, HasPlaces};
ghost use Rattle.xs_base.specs.Bytes.{is_within};
ghost use Rattle.xs_base.specs.Compact.{compacted, is_compacted};
ghost use Rattle.xs_base.specs.File.{initial_file};
ghost use Rattle.xs_base.specs.Header.{xcomp_bv};
ghost use Rattle.xs_base.specs.KernelArea.{class_features, class_size, IsLoadable};
ghost use Rattle.xs_pool.specs.Pool.{stock_of, with_stock, one_more_out, WasGiven, leased, returned};

use crate::shelf::{Full, Shelf};
use std::alloc::{AllocError, Global};
use std::marker::Model;
use xs_area::{Area, Class, Lease, class_size, make_initial};
use xs_layout::Layout;

/// A pool of save areas for the tasks of one machine, so many of each class. Contracts see the record `Pool`. All memory
/// is taken when the pool is opened: that is this project's own, and Linux takes it when a task first needs a Large area
/// (Linux 6.6, arch/x86/kernel/fpu/xstate.c, fpstate_realloc).
#[derive(Drop)]
pub struct AreaPool {
    layout: Layout,
    small: Shelf,
    large: Shelf,
    given: u64,
}

impl Model for AreaPool {
    ghost use Rattle.xs_pool.specs.Pool as pools;
    ghost use Rattle.xs_pool.specs.Shelf.{ArePooled};

    ghost Value = { pools.Pool };

    ghost view = { λ p. record { rows = p.layout; small = p.small.stock; large = p.large.stock; given = p.given } };

    ghost invariant = { λ p. ArePooled p.layout p.small p.large };
}

impl AreaPool {
    /// A pool of `small` areas of the class `Small` and `large` of `Large`, each of its class's length in bytes
    /// (`xs_area::class_size`). Fails for want of memory alone; no other call takes memory.
    pub fn open(
        alloc: Global,
        layout: &Layout,
        small: u32,
        large: u32,
    ) -> Result<AreaPool, AllocError>
        ensures opened { IfOk result (λ pool. pool ≡ record {
          rows = layout.now;
          small = record { out = 0; capacity = small };
          large = record { out = 0; capacity = large };
          given = 0;
        }) }
    {
        Ok(AreaPool {
            layout: *layout,
            small: Shelf::open(alloc, class_size(layout, Class::Small), small)?,
            large: Shelf::open(alloc, class_size(layout, Class::Large), large)?,
            given: 0,
        })
    }

    /// An area of its class's length in bytes, zero but for XCOMP_BV, under a number that was never given before and isn't
    /// 0. Gives `Full` exactly where every area of the class is out, and then nothing changes. Fewer than 2^64 - 1 leases
    /// were given so far.
    pub fn lease(&mut self, class: Class) -> Result<Lease, Full>
        requires { self.old.given < 2 ^ 64 - 1 }

        // Full comes exactly where every area of the class is out.
        ensures full { OnErr result ((stock_of self.old class).out ≡ (stock_of self.old class).capacity) }
        ensures some { OnOk result ((stock_of self.old class).out < (stock_of self.old class).capacity) }
        ensures out { IfErr result (λ full. full.out ≡ (stock_of self.old class).out) }
        ensures capacity { IfErr result (λ full. full.capacity ≡ (stock_of self.old class).capacity) }
        ensures kept { OnErr result (self.new ≡ self.old) }
        ensures after { OnOk result (self.new ≡ leased self.old class) }

        // The lease's number is a new one.
        ensures new { IfOk result (λ lease. WasGiven self.old lease.area.id → ⊥) }
        ensures numbered { IfOk result (λ lease. lease.area.id ≡ 0 → ⊥) }
        ensures given { IfOk result (λ lease. (id : ℕ) →
            WasGiven self.new id ↔ (WasGiven self.old id ⊎ (id ≡ lease.area.id))) }

        // The area is one of the class, and has no state. For a compacted one that is the initial file.
        ensures class { IfOk result (λ lease. lease.class ≡ class) }
        ensures len { IfOk result (λ lease. length lease.area.bytes.items ≡ class_size self.old.rows class) }
        ensures zero { IfOk result (λ lease. (k : ℕ) → is_within 520 8 k ≡ false →
            slice_index lease.area.bytes.items k ≡ 0) }
        ensures names { IfOk result (λ lease.
            xcomp_bv lease.area.bytes.items ≡ compacted (class_features self.old.rows class)) }
        ensures stands { IfOk result (λ lease. is_compacted (xcomp_bv lease.area.bytes.items) ≡ true →
            StandsFor self.old.rows lease.area.bytes.items (initial_file self.old.rows)) }
        ensures loadable { IfOk result (λ lease.
            IsLoadable self.old.rows class lease.area.id lease.area.bytes.items) }
        ensures places { IfOk result (λ lease.
            HasPlaces self.old.rows lease.area.bytes.items (xcomp_bv lease.area.bytes.items)) }
    {
        let mut bytes = self.take(class)?;
        make_initial(&self.layout, class, &mut bytes);
        self.given += 1;
        Ok(Lease {
            class,
            area: Area {
                id: self.given,
                bytes,
            },
        })
    }

    /// Takes an area back, whatever its bytes and its number. An area of its class is out, and it has the length in bytes
    /// that this pool gives that class.
    pub fn give_back(&mut self, lease: Lease)
        requires out { (stock_of self.old lease.class).out ≡ 0 → ⊥ }
        requires len { length lease.area.bytes.items ≡ class_size self.old.rows lease.class }
        ensures after { self.new ≡ returned self.old lease.class }
    {
        match lease.class {
            Class::Small => self.small.put(lease.area.bytes),
            Class::Large => self.large.put(lease.area.bytes),
        }
    }

    /// How many areas of the class are out.
    pub fn out(&self, class: Class) -> u32
        ensures { result ≡ (stock_of self.now class).out }
    {
        match class {
            Class::Small => self.small.out(),
            Class::Large => self.large.out(),
        }
    }

    /// The bytes of an area from the shelf of the class, whatever they are.
    fn take(&mut self, class: Class) -> Result<Vec<u8>, Full>
        ensures full { OnErr result ((stock_of self.old class).out ≡ (stock_of self.old class).capacity) }
        ensures some { OnOk result ((stock_of self.old class).out < (stock_of self.old class).capacity) }
        ensures out { IfErr result (λ full. full.out ≡ (stock_of self.old class).out) }
        ensures capacity { IfErr result (λ full. full.capacity ≡ (stock_of self.old class).capacity) }
        ensures kept { OnErr result (self.new ≡ self.old) }
        ensures after { OnOk result (self.new ≡ with_stock self.old class (one_more_out (stock_of self.old class))) }
        ensures len { IfOk result (λ bytes. length bytes.items ≡ class_size self.old.rows class) }
        ensures header { IfOk result (λ bytes. 576 ≤ length bytes.items) }
    {
        match class {
            Class::Small => self.small.take(),
            Class::Large => self.large.take(),
        }
    }
}
