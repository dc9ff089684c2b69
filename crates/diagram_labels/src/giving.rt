//! The names that labels are given.

ghost use Rattle.std.specs.Prelude.{◌≡◌, ◌++◌, ◌∷◌, [], ◌≤◌, ◌<◌, ◌==◌, ◌^◌, length, take, IfOk, OnErr, codes, decimal};
ghost use Rattle.chart.specs.Names.{IsName};
ghost use Rattle.diagram_labels.specs.Giving.{IsCalled, IsFreeNumbered, IsLeastFree, is_given, numbered, free_from, called};
ghost use Rattle.diagram_labels.specs.Hints.{AreTaken};

use chart::{MAX_NAME, Name};
use indexmap::{IndexMap, IndexSet};
use itoa::Buffer;
use std::alloc::{AllocError, Global};
use std::marker::Model;

/// The first `room` bytes at most.
fn front(bytes: &[u8], room: usize) -> &[u8]
    ensures { result.now ≡ take room bytes.now }
{
    if room < bytes.len() {
        &bytes[..room]
    } else {
        bytes
    }
}

/// The word with the number after it.
fn numbered(alloc: Global, word: &Name, number: u64) -> Result<Name, AllocError>
    ensures { IfOk result (λ name. name ≡ numbered word.now number) }
{
    let mut buffer = Buffer::new();
    let digits = buffer.format(number).as_bytes();
    let front = front(word.as_bytes(), MAX_NAME - 1 - digits.len());
    let mut bytes = Vec::from_slice(alloc, front)?;
    bytes.push(b'_')?;
    bytes.extend_from_slice(digits)?;
    Ok(Name::new(bytes.as_slice()).unwrap())
}

/// The names that were given to labels, in the order of the labels. A contract sees the list.
#[derive(Debug, Drop)]
pub struct GivenNames {
    names: IndexSet<Name>,
    /// For words that were given more than once: the number from which the search for a free one begins.
    hints: IndexMap<Name, u64>,
}

impl Model for GivenNames {
    ghost use Rattle.std.specs.Prelude.{ℕ, List};
    ghost use Rattle.diagram_labels.specs.Hints.{AreHints};

    ghost Value = { List (List ℕ) };

    ghost view = { λ g. g.names.keys };

    ghost invariant = { λ g. AreHints g.names.keys g.hints.entries };
}

impl GivenNames {
    /// No names. It takes no memory.
    pub fn new(alloc: Global) -> GivenNames
        ensures { result ≡ [] }
    {
        GivenNames {
            names: IndexSet::new(alloc),
            hints: IndexMap::new(alloc),
        }
    }

    /// The number of names.
    pub fn len(&self) -> usize
        ensures value { result ≡ length self.now }
        ensures small { result < 2 ^ 63 }
    {
        self.names.len()
    }

    /// Whether there are no names.
    pub fn is_empty(&self) -> bool
        ensures { result ≡ (length self.now == 0) }
    {
        self.len() == 0
    }

    /// Whether a label has the name.
    pub fn is_given(&self, name: &Name) -> bool
        ensures { result ≡ is_given self.now name.now }
    {
        self.names.contains(name)
    }

    /// The names.
    pub fn as_slice(&self) -> &[Name]
        ensures { result.now ≡ self.now }
    {
        self.names.as_slice()
    }

    /// The number from which the search for one that makes the word free begins.
    fn first_number(&self, word: &Name) -> u64
        ensures two { 2 ≤ result }
        ensures taken { AreTaken self.now word.now result }
    {
        match self.hints.get(word) {
            Some(number) => *number,
            None => 2,
        }
    }

    /// The least number from 2 on that makes the word free.
    fn free_number(&self, alloc: Global, word: &Name) -> Result<u64, AllocError>
        ensures least { IfOk result (IsLeastFree self.now word.now) }
        ensures value { IfOk result (λ number. number ≡ free_from self.now word.now (length self.now) 2) }
    {
        // Among more numbers than names, one is free.
        for number in self.first_number(word)..self.len() as u64 + 3 {
            if !self.is_given(&numbered(alloc, word, number)?) {
                return Ok(number);
            }
        }
        unreachable!()
    }

    /// The word with the least number that makes it free. The number is kept for the next label with this spelling.
    fn numbered_free(&mut self, alloc: Global, word: Name) -> Result<Name, AllocError>
        ensures free { IfOk result (IsFreeNumbered self.old word) }
        ensures value { IfOk result (λ name. name ≡ numbered word (free_from self.old word (length self.old) 2)) }
        ensures same { self.new ≡ self.old }
    {
        let number = self.free_number(alloc, &word)?;
        self.hints.insert(word, number)?;
        numbered(alloc, &word, number)
    }

    /// Gives a new label with this spelling its name. The name is the word or, if a label has that, the word with the
    /// least number from 2 on that makes it free. It fails only if memory runs out, and then leaves the names as they
    /// were.
    pub fn give(&mut self, alloc: Global, word: Name) -> Result<Name, AllocError>
        ensures called { IfOk result (IsCalled self.old word) }
        ensures value { IfOk result (λ name. name ≡ called self.old word) }
        ensures given { IfOk result (λ name. self.new ≡ self.old ++ name ∷ []) }
        ensures refused { OnErr result (self.new ≡ self.old) }
    {
        let name = self.free_name(alloc, word)?;
        self.names.insert(name)?;
        Ok(name)
    }

    /// The name of a new label with this spelling.
    #[tactic(auto, unfolding(crate::specs::Giving::called))]
    fn free_name(&mut self, alloc: Global, word: Name) -> Result<Name, AllocError>
        ensures called { IfOk result (IsCalled self.old word) }
        ensures value { IfOk result (λ name. name ≡ called self.old word) }
        ensures same { self.new ≡ self.old }
    {
        if self.is_given(&word) {
            self.numbered_free(alloc, word)
        } else {
            Ok(word)
        }
    }
}
