//! Queues of the lines of each stream.
ghost use Rattle.std.specs.Prelude.{◌≡◌, ◌<◌, ◌&&◌, ℕ, Bool, List, false, true, is_none, length, filter, drop, None, Some, replicate, slice_index_or, slice_set, IfOk};
ghost use Rattle.log_chart.specs.Entries.{is_send};
ghost use Rattle.log_chart.specs.declared.matching.LogLine.{LogLine};
ghost use Rattle.race_verdicts.specs.Luck.Arrivals.{receives, is_left, is_open, of_stream};
ghost use Rattle.race_verdicts.specs.Luck.LineTables.{AreTakers};
ghost use Rattle.race_verdicts.specs.Luck.QueueTables.{IsQueue, IsSomeQueue, AreQueues, with_list, first_number};
ghost use Rattle.race_verdicts.specs.Luck.Recorded.{IsLog};

use crate::luck::tables::Table;
use log_chart::{LogLine, is_send};
use std::alloc::{AllocError, Global};

/// For each stream, some of its lines, in order.
#[derive(Drop)]
pub(crate) struct Queues {
    /// For each stream, the first line of its queue.
    first: Table,
    /// For each line, the next one of its queue.
    next: Table,
}

/// Empty queues, for a log with this number of lines.
fn no_queues(alloc: Global, count: usize) -> Result<Queues, AllocError>
    ensures first { IfOk result (λ queues. queues.first ≡ replicate count None) }
    ensures next { IfOk result (λ queues. queues.next ≡ replicate count None) }
{
    Ok(Queues {
        first: Table::none(alloc, count)?,
        next: Table::none(alloc, count)?,
    })
}

impl Queues {
    /// Puts a line before those of a stream.
    fn put_first(&mut self, stream: usize, number: usize)
        requires stream { stream < length self.old.first }
        requires number { number < length self.old.next }
        ensures first { self.new.first ≡ slice_set self.old.first stream (Some number) }
        ensures next { self.new.next ≡ slice_set self.old.next number (slice_index_or self.old.first stream None) }
    {
        let behind = self.first.at(stream);
        self.next.set(number, behind);
        self.first.set(stream, Some(number));
    }

    /// The first line of a stream's queue from line `at` on.
    fn first_from(&self, stream: usize, at: usize) -> Option<usize>
        requires { IsSomeQueue self.now.next (slice_index_or self.now.first stream None) }
        ensures { (lines list : List LogLine) → IsQueue lines false self.now.next 0 (slice_index_or self.now.first stream None) list
            → IsQueue lines false self.now.next 0 result (filter (is_open at) list) }
    {
        let mut next = self.first.at(stream);
        'lines: while let Some(number) = next {
            if at <= number {
                return next;
            }
            next = self.next.at(number);
        }
        None
    }

    /// Drops the lines above line `at` from a stream's queue of receives.
    pub(crate) fn leave_above(&mut self, stream: usize, at: usize)
        requires { IsSomeQueue self.old.next (slice_index_or self.old.first stream None) }
        ensures { (lines : List LogLine) (lists : ℕ → List LogLine) → AreQueues lines false self.old.first self.old.next 0 lists
            → AreQueues lines false self.new.first self.new.next 0 (with_list lists stream (filter (is_open at) (lists stream))) }
    {
        let first = self.first_from(stream, at);
        self.first.put(stream, first);
    }

    /// Removes the first line from a stream's queue.
    pub(crate) fn take_first(&mut self, stream: usize) -> Option<usize>
        ensures first { (lines : List LogLine) (sends : Bool) (lists : ℕ → List LogLine) → AreQueues lines sends self.old.first self.old.next 0 lists
            → result ≡ first_number (lists stream) }
        ensures taken { (lines : List LogLine) (sends : Bool) (lists : ℕ → List LogLine) → AreQueues lines sends self.old.first self.old.next 0 lists
            → AreQueues lines sends self.new.first self.new.next 0 (with_list lists stream (drop 1 (lists stream))) }
    {
        match self.first.at(stream) {
            None => None,
            Some(number) => {
                let behind = self.next.at(number);
                self.first.put(stream, behind);
                Some(number)
            }
        }
    }
}

/// The receives of each stream.
pub(crate) fn received_of(alloc: Global, lines: &[LogLine]) -> Result<Queues, AllocError>
    requires { IsLog lines.now }
    ensures { IfOk result (λ queues. AreQueues lines.now false queues.first queues.next 0 (of_stream receives lines.now)) }
{
    let mut queues = no_queues(alloc, lines.len())?;
    let mut number = lines.len();
    'lines: while number > 0 {
        number -= 1;
        let line = &lines[number];
        if !is_send(line.entry.kind) {
            queues.put_first(line.entry.stream, number);
        }
    }
    Ok(queues)
}

/// Whether a line sends a message that no line takes.
fn is_left(line: &LogLine, taker: Option<usize>) -> bool
    ensures { result ≡ (is_send line.now.entry.kind && is_none taker) }
{
    is_send(line.entry.kind) && taker.is_none()
}

/// The sends of each stream that no line takes.
pub(crate) fn left_of(
    alloc: Global,
    lines: &[LogLine],
    takers: &Table,
) -> Result<Queues, AllocError>
    requires log { IsLog lines.now }
    requires takers { AreTakers lines.now takers.now }
    ensures { IfOk result (λ queues. AreQueues lines.now true queues.first queues.next 0 (of_stream (is_left lines.now) lines.now)) }
{
    let mut queues = no_queues(alloc, lines.len())?;
    let mut number = lines.len();
    'lines: while number > 0 {
        number -= 1;
        let line = &lines[number];
        if is_left(line, takers.at(number)) {
            queues.put_first(line.entry.stream, number);
        }
    }
    Ok(queues)
}
