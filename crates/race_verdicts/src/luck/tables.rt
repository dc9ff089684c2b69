//! Tables with an entry for each number below a limit.
ghost use Rattle.std.specs.Prelude.{◌≡◌, ◌<◌, length, None, replicate, slice_index_or, slice_set, IfOk};
ghost use Rattle.race_verdicts.specs.Luck.Tables.{IsNoted};

use std::alloc::{AllocError, Global};
use std::marker::Model;

/// For each number below a limit, such as those of lines, another number or none. Contracts see the list.
#[derive(Drop)]
pub(crate) struct Table {
    entries: Vec<Option<usize>>,
}

impl Model for Table {
    ghost use Rattle.std.specs.Prelude.{ℕ, List, Option};

    ghost Value = { List (Option ℕ) };

    ghost view = { λ t. t.entries.items };
}

impl Table {
    /// A table of this length without entries.
    pub(crate) fn none(alloc: Global, count: usize) -> Result<Table, AllocError>
        ensures { IfOk result (λ table. table ≡ replicate count None) }
    {
        Ok(Table {
            entries: vec![in alloc; None; count]?,
        })
    }

    /// The entry of a number. Past the last number there is none.
    pub(crate) fn at(&self, number: usize) -> Option<usize>
        ensures { result ≡ slice_index_or self.now number None }
    {
        match self.entries.get(number) {
            Some(entry) => *entry,
            None => None,
        }
    }

    /// Replaces the entry of a number.
    pub(crate) fn set(&mut self, number: usize, entry: Option<usize>)
        requires { number < length self.old }
        ensures { self.new ≡ slice_set self.old number entry }
    {
        self.entries[number] = entry;
    }

    /// Replaces the entry of a number. Past the last number it does nothing.
    pub(crate) fn put(&mut self, number: usize, entry: Option<usize>)
        ensures { self.new ≡ slice_set self.old number entry }
    {
        if number < self.entries.len() {
            self.entries[number] = entry;
        }
    }

    /// Sets the entry of a number that has none. Past the last number it does nothing.
    pub(crate) fn note(&mut self, number: usize, entry: usize)
        ensures { IsNoted self.old self.new number entry }
    {
        if number < self.entries.len() && self.entries[number].is_none() {
            self.entries[number] = Some(entry);
        }
    }
}
