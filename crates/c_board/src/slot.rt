//! A pointer to a box, or to nothing.
ghost use Rattle.std.specs.Prelude.{◌≡◌};
ghost use Rattle.std.specs.declared.option.Option.{Option};
ghost use Rattle.std.specs.declared.option.Option.TheVariants.{None, Some};
ghost use Rattle.c_board.specs.declared.kept.Kept.{Kept};
ghost use Rattle.c_board.specs.Cells.{slot_owns};

use crate::kept::Kept;
use crate::loose::Loose;
use std::alloc::Global;
use std::marker::Model;
use std::ptr::null_mut;

/// A pointer that owns its box, if there is one.
#[repr(C)]
#[derive(Drop)]
pub struct Slot {
    at: *mut u8,
    pub ghost value: { Option Kept },
}

impl Model for Slot {
    ghost also_owns = { λ slot. slot_owns slot.at slot.value };
}

impl Slot {
    /// No box.
    #[inline(always)]
    pub(crate) fn empty() -> Slot
        ensures { result.value ≡ None }
    {
        Slot { at: null_mut() }
    }

    /// A pointer to this box.
    #[inline(always)]
    pub(crate) fn full(loose: Loose<Kept, Global>) -> Slot
        ensures { result.value ≡ Some loose.value }
    {
        let Loose { at, alloc: _ } = loose;
        Slot { at: at as *mut u8 }
    }

    /// The box, which exists.
    #[inline(always)]
    pub(crate) fn into_loose(self, alloc: Global) -> Loose<Kept, Global>
        requires { self.value ≡ None → ⊥ }
        ensures { self.value ≡ Some result.value }
    {
        let Slot { at } = self;
        Loose {
            at: at as *mut Kept,
            alloc,
        }
    }
}

impl Slot {
    ghost use Rattle.std.specs.Prelude.{◌≡◌};
    ghost use Rattle.std.specs.Borrow.{sem};
    ghost use Rattle.c_board.specs.Lending.{LendsKept};

    /// The content of the box, which exists. It is read and changed in place.
    #[inline(always)]
    pub(crate) fn get_mut(&mut self) -> &mut Kept
        requires { self.old.value ≡ None → ⊥ }
        ensures* writes_back { sem 𝓛 (LendsKept self.entry result) }
        ensures value { self.old.value ≡ Some result.now }
    {
        unsafe { &mut *(self.at as *mut Kept) }
    }
}

// The content of the box may move to another thread, and nobody else has the pointer.
unsafe impl Send for Slot {}
