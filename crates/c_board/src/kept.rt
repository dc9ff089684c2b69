//! What a handle keeps.
ghost use Rattle.std.specs.Prelude.{◌≡◌, IfOk};
ghost use Rattle.std.specs.Borrow.{sem};
ghost use Rattle.std.specs.Option.{option_copied, option_copied_mut};
ghost use Rattle.c_board.specs.declared.kept.Kept.TheVariants as variant;
ghost use Rattle.c_board.specs.Contents.{post_in, board_in};
ghost use Rattle.c_board.specs.Lending.{LendsPost};

use crate::post_state::PostState;
use crate::whole_board::WholeBoard;
use std::alloc::{AllocError, Global};

/// What a handle keeps in its box.
#[derive(Drop)]
pub enum Kept {
    /// The post of an instance.
    Post(PostState),
    /// The result of gathering a whole board.
    Board(WholeBoard),
    /// Nothing, while it is moved elsewhere.
    Away,
}

// All variants are as large as the largest, and each move of one is compiled to more than a hundred instructions. So
// the functions that move one are compiled only once, and aren't inlined.
impl Kept {
    /// A box that is to be filled.
    #[inline(never)]
    pub(crate) fn away(alloc: Global) -> Result<Box<Kept>, AllocError>
        ensures { IfOk result (λ kept. kept.value ≡ variant.Away) }
    {
        Ok(Box::new(alloc, Kept::Away)?)
    }

    /// Replaces the content by this post.
    #[inline(never)]
    pub(crate) fn put_seat(&mut self, state: PostState)
        ensures { self.new ≡ variant.Post state }
    {
        *self = Kept::Post(state);
    }

    /// The post, if it is one.
    #[inline(always)]
    pub(crate) fn post_mut(&mut self) -> Option<&mut PostState>
        ensures* writes_back { sem 𝓛 (LendsPost self.entry result) }
        ensures value { option_copied_mut result ≡ post_in (Some self.old) }
    {
        match self {
            Kept::Post(state) => Some(state),
            _ => None,
        }
    }

    /// The post, if it is one, to be read.
    #[inline(always)]
    pub(crate) fn post(&self) -> Option<&PostState>
        ensures { post_in (Some self.now) ≡ option_copied result }
    {
        match self {
            Kept::Post(state) => Some(state),
            _ => None,
        }
    }

    /// The board, if it is one, to be read.
    pub(crate) fn board(&self) -> Option<&WholeBoard>
        ensures { board_in (Some self.now) ≡ option_copied result }
    {
        match self {
            Kept::Board(it) => Some(it),
            _ => None,
        }
    }
}
