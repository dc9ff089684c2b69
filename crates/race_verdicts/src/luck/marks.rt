//! The sends of a host that each line comes before.
ghost use Rattle.std.specs.Prelude.{ℕ, ◌≡◌, ◌<◌, ◌&&◌, ◌==◌, [], length, None, map, is_some, replicate, IfOk, OnOk};
ghost use Rattle.log_chart.specs.Entries.{is_send};
ghost use Rattle.log_chart.specs.FateTables.{IsWithin};
ghost use Rattle.log_chart.specs.Cycles.Searching.{HasReached, HasFollowed, IsClosed, AreBefore, IsPast};
ghost use Rattle.log_chart.specs.Cycles.Sources.{IsDirect, AreSources};
ghost use Rattle.race_verdicts.specs.Luck.Marking.{HaveMarked, AreFirsts};
ghost use Rattle.race_verdicts.specs.Luck.Recorded.{IsLog};

use crate::luck::tables::Table;
use chart::InstanceNo;
use log_chart::cycles::Sources;
use log_chart::{LogLine, is_send};
use std::alloc::{AllocError, Global};

/// The lines that were found to come before some sends, each with the first of these sends.
#[derive(Drop)]
struct Marks {
    /// For each line, this send, if the line was found.
    marks: Table,
    /// The found lines whose own sources haven't been followed yet.
    stack: Vec<usize>,
}

impl Marks {
    /// Nothing found, for a log with this number of lines.
    fn nothing(alloc: Global, count: usize) -> Result<Marks, AllocError>
        ensures marks { IfOk result (λ marks. marks.marks ≡ replicate count None) }
        ensures stack { IfOk result (λ marks. marks.stack.items ≡ []) }
    {
        Ok(Marks {
            marks: Table::none(alloc, count)?,
            stack: Vec::new(alloc),
        })
    }

    /// Marks a line, if one is given and it has no mark.
    fn reach(&mut self, number: Option<usize>, mark: usize) -> Result<(), AllocError>
        requires { IsWithin (length self.old.marks) number }
        ensures reached { OnOk result (HasReached number (map is_some self.old.marks) self.old.stack.items
            (map is_some self.new.marks) self.new.stack.items) }
        ensures marked { OnOk result (HaveMarked mark self.old.marks self.new.marks) }
    {
        let Some(number) = number else { return Ok(()) };
        if self.marks.at(number).is_none() {
            self.stack.push(number)?;
            self.marks.set(number, Some(mark));
        }
        Ok(())
    }

    /// Marks the lines directly before a line.
    fn follow(&mut self, sources: &Sources, number: usize, mark: usize) -> Result<(), AllocError>
        requires { (a : ℕ) → IsDirect sources.now.above.items sources.now.sends.items a number
            → a < length self.old.marks }
        ensures followed { OnOk result (HasFollowed sources.now.above.items sources.now.sends.items number
            (map is_some self.old.marks) self.old.stack.items (map is_some self.new.marks) self.new.stack.items) }
        ensures marked { OnOk result (HaveMarked mark self.old.marks self.new.marks) }
    {
        self.reach(sources.above(number), mark)?;
        self.reach(sources.send(number), mark)?;
        Ok(())
    }

    /// Marks all lines that come before a send. The lines that were marked earlier come before it too.
    fn pass(&mut self, sources: &Sources, send: usize) -> Result<(), AllocError>
        requires within { (a b : ℕ) → IsDirect sources.now.above.items sources.now.sends.items a b
            → a < length self.old.marks }
        requires stack { self.old.stack.items ≡ [] }
        requires closed { IsClosed sources.now.above.items sources.now.sends.items (map is_some self.old.marks) }
        requires before { AreBefore sources.now.above.items sources.now.sends.items (map is_some self.old.marks) send }
        ensures stack { OnOk result (self.new.stack.items ≡ []) }
        ensures past { OnOk result (IsPast sources.now.above.items sources.now.sends.items send (map is_some self.new.marks)) }
        ensures marked { OnOk result (HaveMarked send self.old.marks self.new.marks) }
    {
        self.follow(sources, send, send)?;
        'lines: while let Some(next) = self.stack.pop() {
            self.follow(sources, next, send)?;
        }
        Ok(())
    }
}

/// Whether a line is a send of the host.
fn is_send_of(line: &LogLine, host: InstanceNo) -> bool
    ensures { result ≡ (line.now.entry.host == host && is_send line.now.entry.kind) }
{
    line.entry.host == host && is_send(line.entry.kind)
}

/// For each line, the first send of the host that it comes before.
pub(crate) fn firsts_of(
    alloc: Global,
    sources: &Sources,
    lines: &[LogLine],
    host: InstanceNo,
) -> Result<Table, AllocError>
    requires log { IsLog lines.now }
    requires sources { AreSources lines.now (length lines.now) sources.now.above.items sources.now.sends.items }
    ensures { IfOk result (AreFirsts lines.now host) }
{
    let mut found = Marks::nothing(alloc, lines.len())?;
    for line in lines {
        if is_send_of(line, host) {
            found.pass(sources, line.number)?;
        }
    }
    let Marks { marks, stack: _ } = found;
    Ok(marks)
}
