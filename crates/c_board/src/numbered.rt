//! The numbers of refusals.
ghost use Rattle.std.specs.Prelude.{◌≡◌, ◌≤◌, ℕ};
ghost use Rattle.c_board.specs.declared.misuse.Numbering.{Numbering};
ghost use Rattle.c_board.specs.Refusals.{of_name, of_board, of_send, of_take, of_close, of_region};
ghost use Rattle.c_board.specs.Refusals.{of_misuse};

use crate::misuse::{Misuse, Numbering};
use board::{BoardError, CloseError, RegionError, SendError, TakeError};
use chart::NameError;

/// A refusal with a number.
pub trait Numbered: Copy {
    ghost number: { Numbering → Self → ℕ };

    /// The refusal's number, as in `docs/reference/refusals.md`, where misuses are numbered like this.
    fn number(self, misuses: Numbering) -> u32
        ensures value { result ≡ number misuses self }
        ensures small { result ≤ 105 };
}

impl Numbered for Misuse {
    ghost number = { of_misuse };

    #[inline(always)]
    fn number(self, misuses: Numbering) -> u32 {
        match misuses {
            Numbering::Alike => 100,
            Numbering::ByCause => match self {
                Misuse::NoPost => 101,
                Misuse::NoBoard => 101,
                Misuse::InUse => 103,
                Misuse::WrongNumber => 104,
                Misuse::OtherBoard => 105,
                Misuse::NoMessage => 100,
            },
        }
    }
}

impl Numbered for NameError {
    ghost number = { λ _ error. of_name error };

    #[inline(always)]
    fn number(self, _misuses: Numbering) -> u32 {
        match self {
            NameError::Empty => 1,
            NameError::TooLong => 2,
            NameError::BadByte(_) => 3,
            NameError::Reserved => 4,
        }
    }
}

impl Numbered for BoardError {
    ghost number = { λ _ error. of_board error };

    #[inline(always)]
    fn number(self, _misuses: Numbering) -> u32 {
        match self {
            BoardError::Instances => 8,
            BoardError::Capacity => 9,
            BoardError::Memory => 6,
        }
    }
}

impl Numbered for SendError {
    ghost number = { λ _ error. of_send error };

    #[inline(always)]
    fn number(self, _misuses: Numbering) -> u32 {
        match self {
            SendError::NoSuchInstance => 14,
            SendError::ToItself => 13,
            SendError::InCoregion => 30,
            SendError::Closed => 12,
            SendError::TooMany => 27,
            SendError::LineFull => 7,
            SendError::Full => 11,
            SendError::Memory => 6,
        }
    }
}

impl Numbered for TakeError {
    ghost number = { λ _ error. of_take error };

    #[inline(always)]
    fn number(self, _misuses: Numbering) -> u32 {
        match self {
            TakeError::NoSuchInstance => 14,
            TakeError::ToItself => 13,
            TakeError::LineFull => 7,
            TakeError::Memory => 6,
        }
    }
}

impl Numbered for CloseError {
    ghost number = { λ _ error. of_close error };

    #[inline(always)]
    fn number(self, _misuses: Numbering) -> u32 {
        match self {
            CloseError::NoSuchInstance => 14,
            CloseError::ToItself => 13,
            CloseError::Closed => 12,
        }
    }
}

impl Numbered for RegionError {
    ghost number = { λ _ error. of_region error };

    #[inline(always)]
    fn number(self, _misuses: Numbering) -> u32 {
        match self {
            RegionError::CoregionOpen => 28,
            RegionError::CoregionNotOpen => 29,
        }
    }
}
