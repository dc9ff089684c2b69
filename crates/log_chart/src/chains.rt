//! Lists of numbers that share two tables: the first number of each list, and the number after each number.
ghost use Rattle.std.specs.Prelude.{◌≡◌, ◌<◌, ℕ, List, [], length, IfOk, slice_index_or, None};
ghost use Rattle.log_chart.specs.Chains.{IsBelow, AreChains, first_of, with_first, without_first};

use std::alloc::{AllocError, Global};

/// Lists of numbers below a limit. No number is in two of them.
#[derive(Drop)]
pub(crate) struct Chains {
    first: Vec<Option<usize>>,
    next: Vec<Option<usize>>,
}

impl Chains {
    /// Makes `count` empty lists for numbers below `count`. It fails only if there is no memory.
    pub(crate) fn new(alloc: Global, count: usize) -> Result<Chains, AllocError>
        ensures lists { IfOk result (λ chains. length chains.first.items ≡ count) }
        ensures numbers { IfOk result (λ chains. length chains.next.items ≡ count) }
        ensures none { IfOk result (λ chains. AreChains chains.first.items chains.next.items (λ c. [])) }
    {
        Ok(Chains {
            first: vec![in alloc; None; count]?,
            next: vec![in alloc; None; count]?,
        })
    }

    /// Puts a number before the numbers of a list. It is less than all numbers of the lists.
    pub(crate) fn put_first(&mut self, list: usize, number: usize)
        requires list { list < length self.old.first.items }
        requires number { number < length self.old.next.items }
        ensures lists { length self.new.first.items ≡ length self.old.first.items }
        ensures numbers { length self.new.next.items ≡ length self.old.next.items }
        ensures put { (lists : ℕ → List ℕ) → AreChains self.old.first.items self.old.next.items lists
            → ((c : ℕ) → IsBelow number (lists c))
            → AreChains self.new.first.items self.new.next.items (with_first lists list number) }
    {
        self.next[number] = self.first[list];
        self.first[list] = Some(number);
    }

    /// The first number of a list.
    pub(crate) fn first_of(&self, list: usize) -> Option<usize>
        ensures { result ≡ slice_index_or self.now.first.items list None }
    {
        match self.first.get(list) {
            Some(first) => *first,
            None => None,
        }
    }

    /// The number after a number of a list.
    pub(crate) fn next_of(&self, number: usize) -> Option<usize>
        ensures { result ≡ slice_index_or self.now.next.items number None }
    {
        match self.next.get(number) {
            Some(next) => *next,
            None => None,
        }
    }

    /// Takes the first number off a list.
    pub(crate) fn take_first(&mut self, list: usize) -> Option<usize>
        requires list { list < length self.old.first.items }
        ensures lists { length self.new.first.items ≡ length self.old.first.items }
        ensures numbers { self.new.next.items ≡ self.old.next.items }
        ensures value { (lists : ℕ → List ℕ) → AreChains self.old.first.items self.old.next.items lists
            → result ≡ first_of (lists list) }
        ensures taken { (lists : ℕ → List ℕ) → AreChains self.old.first.items self.old.next.items lists
            → AreChains self.new.first.items self.new.next.items (without_first lists list) }
    {
        match self.first[list] {
            None => None,
            Some(number) => {
                self.first[list] = self.next_of(number);
                Some(number)
            }
        }
    }
}
