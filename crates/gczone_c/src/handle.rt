// What C holds: a box as a pointer, and a word on whether it is there.
ghost use Rattle.std.specs.Prelude.{◌≡◌, ◌↔◌, None, Some, Option, IfSome, IfNone, IsSome, IsTrue};
ghost use Rattle.gczone_c.specs.Owned.{owns_box};
ghost use Rattle.gczone_c.specs.declared.held.Held.{Held};
ghost use Rattle.gczone_c.specs.contracts.held.Held.{the_row as held_row};

use crate::held::Held;
use crate::loose::Loose;
use std::alloc::Global;
use std::marker::Model;
use std::{mem, ptr};

/// A box, or null. C sees the pointer, and no type behind it.
#[repr(C)]
pub struct Slot {
    at: *mut u8,
    pub ghost held: { Option Held },
}

impl Model for Slot {
    ghost also_owns = { λ s. owns_box held_row s.at s.held };
}

// A box of malloc's memory, which any thread may use and free.
unsafe impl Send for Slot {}

impl Slot {
    /// A slot without a box.
    pub fn closed() -> Slot
        ensures { result.held ≡ None }
    {
        Slot {
            at: ptr::null_mut(),
        }
    }

    /// A slot with a box.
    pub fn of(value: Loose<Held, Global>) -> Slot
        ensures { result.held ≡ Some value.value }
    {
        let Loose { at, alloc: _ } = value;
        Slot { at: at as *mut u8 }
    }

    /// Gives the box back.
    pub fn into_loose(self, alloc: Global) -> Loose<Held, Global>
        requires { IsSome self.held }
        ensures { self.held ≡ Some result.value }
    {
        let Slot { at } = self;
        Loose {
            at: at as *mut Held,
            alloc,
        }
    }

    /// Lets go of a slot without a box.
    pub fn let_go(self)
        requires { self.held ≡ None }
    {
        let Slot { at: _ } = self;
    }
}

/// A handle, as C holds it: `gcz_t`. All zero is a closed one. By the flag no proof compares a
/// pointer with null.
#[repr(C)]
pub struct Gcz {
    is_open: bool,
    pub slot: Slot,
    pub ghost agrees: { IsTrue is_open ↔ IsSome slot.held },
}

impl Gcz {
    pub fn closed() -> Gcz
        ensures { result.slot.held ≡ None }
    {
        Gcz {
            is_open: false,
            slot: Slot::closed(),
        }
    }

    pub fn of(value: Box<Held>) -> Gcz
        ensures { result.slot.held ≡ Some value.value }
    {
        Gcz {
            is_open: true,
            slot: Slot::of(Loose::of(value)),
        }
    }

    /// Takes out what the handle leads to. The handle is closed then.
    pub fn take(&mut self, alloc: Global) -> Option<Box<Held>>
        ensures some { IfSome result (λ b. self.old.slot.held ≡ Some b.value) }
        ensures none { IfNone result (self.old.slot.held ≡ None) }
        ensures closed { self.new.slot.held ≡ None }
    {
        if !self.is_open {
            return None;
        }
        let Gcz { is_open: _, slot } = mem::replace(self, Gcz::closed());
        Some(slot.into_loose(alloc).into_box())
    }

    /// Opens a handle. What it led to is freed.
    pub fn put(&mut self, alloc: Global, value: Box<Held>)
        ensures { self.new.slot.held ≡ Some value.value }
    {
        mem::replace(self, Gcz::of(value)).close(alloc);
    }

    /// Frees what the handle leads to.
    pub fn close(self, alloc: Global) {
        let Gcz { is_open, slot } = self;
        if is_open {
            drop(slot.into_loose(alloc).into_box());
        } else {
            slot.let_go();
        }
    }
}

fn needs_send<T: Send>(_value: &T) {}

/// A handle may go to another thread.
pub fn may_be_sent(gcz: &Gcz) {
    needs_send(gcz)
}
