//! What comes before a line of a log.
ghost use Rattle.std.specs.Prelude.{ℕ, ◌≡◌, ◌<◌, [], length, false, IfOk, OnOk, slice_index_or, replicate};
ghost use Rattle.log_chart.specs.FateTables.{IsWithin};
ghost use Rattle.log_chart.specs.Cycles.Searching.{HasReached, HasFollowed, IsClosed, AreBefore, IsPast};
ghost use Rattle.log_chart.specs.Cycles.Sources.{IsDirect};

use crate::cycles::sources::Sources;
use std::alloc::{AllocError, Global};

/// The lines that were found so far to come before a line.
#[derive(Drop)]
pub(crate) struct Past {
    /// Whether a line was found, by its number.
    seen: Vec<bool>,
    /// The lines that were found, and whose own sources are still to be visited.
    stack: Vec<usize>,
}

impl Past {
    /// No line is found, of a log of `count` lines. It fails only if there is no memory.
    pub(crate) fn nothing(alloc: Global, count: usize) -> Result<Past, AllocError>
        ensures seen { IfOk result (λ past. past.seen.items ≡ replicate count false) }
        ensures stack { IfOk result (λ past. past.stack.items ≡ []) }
    {
        Ok(Past {
            seen: vec![in alloc; false; count]?,
            stack: Vec::new(alloc),
        })
    }

    /// Whether the line with this number was found.
    pub(crate) fn has(&self, number: usize) -> bool
        ensures { result ≡ slice_index_or self.now.seen.items number false }
    {
        match self.seen.get(number) {
            Some(seen) => *seen,
            None => false,
        }
    }

    /// Marks a line as found, if there is one.
    fn reach(&mut self, number: Option<usize>) -> Result<(), AllocError>
        requires { IsWithin (length self.old.seen.items) number }
        ensures { OnOk result (HasReached number self.old.seen.items self.old.stack.items self.new.seen.items self.new.stack.items) }
    {
        let Some(number) = number else { return Ok(()) };
        if !self.seen[number] {
            self.stack.push(number)?;
            self.seen[number] = true;
        }
        Ok(())
    }

    /// Marks as found what is directly before a line.
    fn follow(&mut self, sources: &Sources, number: usize) -> Result<(), AllocError>
        requires { (a : ℕ) → IsDirect sources.now.above.items sources.now.sends.items a number
            → a < length self.old.seen.items }
        ensures { OnOk result (HasFollowed sources.now.above.items sources.now.sends.items number
            self.old.seen.items self.old.stack.items self.new.seen.items self.new.stack.items) }
    {
        self.reach(sources.above(number))?;
        self.reach(sources.send(number))?;
        Ok(())
    }

    /// Marks as found all that comes before a line. What was found already comes before it too. It fails only if there
    /// is no memory.
    pub(crate) fn pass(&mut self, sources: &Sources, number: usize) -> Result<(), AllocError>
        requires within { (a b : ℕ) → IsDirect sources.now.above.items sources.now.sends.items a b
            → a < length self.old.seen.items }
        requires stack { self.old.stack.items ≡ [] }
        requires closed { IsClosed sources.now.above.items sources.now.sends.items self.old.seen.items }
        requires before { AreBefore sources.now.above.items sources.now.sends.items self.old.seen.items number }
        ensures whole { OnOk result (length self.new.seen.items ≡ length self.old.seen.items) }
        ensures stack { OnOk result (self.new.stack.items ≡ []) }
        ensures past { OnOk result (IsPast sources.now.above.items sources.now.sends.items number self.new.seen.items) }
    {
        self.follow(sources, number)?;
        'lines: while let Some(next) = self.stack.pop() {
            self.follow(sources, next)?;
        }
        Ok(())
    }
}
