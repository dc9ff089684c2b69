//! Lists of numbers.
ghost use Rattle.std.specs.Prelude.{◌≡◌, ◌<◌, length, replicate, slice_index, slice_set, IfOk};

use std::alloc::{AllocError, Global};
use std::marker::Model;

/// A list of numbers, one for each line. A contract sees the list.
#[derive(Drop)]
pub struct Numbers {
    numbers: Vec<usize>,
}

impl Model for Numbers {
    ghost use Rattle.std.specs.Prelude.{ℕ, List};

    ghost Value = { List ℕ };

    ghost view = { λ n. n.numbers.items };
}

impl Numbers {
    /// A list of this number of zeros.
    pub fn zeros(alloc: Global, count: usize) -> Result<Numbers, AllocError>
        ensures { IfOk result (λ zeros. zeros ≡ replicate count 0) }
    {
        Ok(Numbers {
            numbers: vec![in alloc; 0; count]?,
        })
    }

    #[inline(always)]
    pub fn len(&self) -> usize
        ensures { result ≡ length self.now }
    {
        self.numbers.len()
    }

    /// The number at a place.
    #[inline(always)]
    pub fn at(&self, place: usize) -> usize
        requires { place < length self.now }
        ensures { result ≡ slice_index self.now place }
    {
        self.numbers[place]
    }

    /// Replaces the number at a place.
    #[inline(always)]
    pub fn set(&mut self, place: usize, number: usize)
        requires { place < length self.old }
        ensures { self.new ≡ slice_set self.old place number }
    {
        self.numbers[place] = number;
    }
}
