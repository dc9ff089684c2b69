//! A handle.
ghost use Rattle.std.specs.Prelude.{◌≡◌, true, false, IfSome, IfNone};
ghost use Rattle.std.specs.declared.option.Option.{Option};
ghost use Rattle.std.specs.declared.option.Option.TheVariants.{None, Some};
ghost use Rattle.c_board.specs.declared.kept.Kept.{Kept};
ghost use Rattle.c_board.specs.Words.{word_of};

use crate::kept::Kept;
use crate::loose::Loose;
use crate::post_state::PostState;
use crate::slot::Slot;
use std::alloc::Global;
use std::mem;

/// Two words in the caller's memory: 0 and no pointer, or 1 and the pointer to the box with what the handle keeps.
#[repr(C)]
pub struct Handle {
    word: u64,
    pub(crate) slot: Slot,
    pub ghost output: { word ≡ word_of slot.value },
}

impl Handle {
    /// A handle that keeps nothing.
    pub fn empty() -> Handle
        ensures { result.slot.value ≡ None }
    {
        Handle {
            word: 0,
            slot: Slot::empty(),
        }
    }

    /// Whether it keeps nothing.
    #[inline(always)]
    pub(crate) fn is_empty(&self) -> bool
        ensures yes { result ≡ true → self.now.slot.value ≡ None }
        ensures no { result ≡ false → self.now.slot.value ≡ None → ⊥ }
    {
        self.word == 0
    }

    /// Takes out what the handle keeps, if anything. Then it keeps nothing.
    #[inline(always)]
    pub fn take(&mut self, alloc: Global) -> Option<Box<Kept>>
        ensures some { IfSome result (λ kept. self.old.slot.value ≡ Some kept.value) }
        ensures none { IfNone result (self.old.slot.value ≡ None) }
        ensures empty { self.new.slot.value ≡ None }
    {
        if self.word == 0 {
            return None;
        }
        let slot = mem::replace(&mut self.slot, Slot::empty());
        self.word = 0;
        Some(slot.into_loose(alloc).into_box())
    }

    /// Puts this into the handle, which keeps nothing.
    #[inline(always)]
    pub fn put(&mut self, kept: Box<Kept>)
        requires { self.old.slot.value ≡ None }
        ensures { self.new.slot.value ≡ Some kept.value }
    {
        self.slot = Slot::full(Loose::of(kept));
        self.word = 1;
    }

    /// Frees what the handle keeps, if anything: then the post or the board doesn't exist any more.
    pub fn free(&mut self, alloc: Global)
        ensures { self.new.slot.value ≡ None }
    {
        drop(self.take(alloc));
    }

    /// Frees what the handle keeps, and ends the handle itself: for owners of a handle in this language. In another
    /// language a handle is in its caller's memory, and isn't ended.
    pub fn end(self, alloc: Global) {
        let mut handle = self;
        handle.free(alloc);
        let Handle { word: _, slot: _ } = handle;
    }
}

impl Handle {
    ghost use Rattle.std.specs.Prelude.{◌≡◌};
    ghost use Rattle.std.specs.Borrow.{sem};
    ghost use Rattle.std.specs.Option.{option_copied_mut};
    ghost use Rattle.c_board.specs.Contents.{post_in};
    ghost use Rattle.c_board.specs.HandleLending.{LendsItsPost};

    /// The post, if one is kept, to be used in place.
    #[inline(always)]
    pub(crate) fn post_mut(&mut self) -> Option<&mut PostState>
        ensures* writes_back { sem 𝓛 (LendsItsPost self.entry result) }
        ensures value { post_in self.old.slot.value ≡ option_copied_mut result }
    {
        if self.word == 0 {
            return None;
        }
        let slot = &mut self.slot;
        let kept = slot.get_mut();
        kept.post_mut()
    }
}
