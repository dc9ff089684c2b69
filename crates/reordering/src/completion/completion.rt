//! The last send that is finished before a receive.
ghost use Rattle.std.specs.Prelude.{◌≡◌, ◌<◌, ◌≤◌, ℕ, suc, length, All, IfOk};
ghost use Rattle.chart.specs.Charts.{at, chart_lines, IsReceiveFrom, HasPartners};
ghost use Rattle.chart.specs.Events.{partner_of};
ghost use Rattle.chart.specs.Ranges.{IsRange, events_in};
ghost use Rattle.chart.specs.Reports.{IsReportIn};
ghost use Rattle.closure.specs.Closures.{IsPossibleChart};
ghost use Rattle.reordering.specs.Completion.Orders.{IsFinishedUpTo};
ghost use Rattle.reordering.specs.Completion.Tables.{IsAmong, IsLastSettled, AreLastSends, first_index};

use crate::completion::last_sends::{LastSends, last_sends_of};
use crate::completion::row::Row;
use chart::{EventNo, EventRange, GrowingLine, Line};
use closure::Closure;
use std::alloc::{AllocError, Global};
use std::marker::Model;

/// A line of a chart.
fn line_at(lines: &[Line], line: usize) -> &GrowingLine
    requires { line < length lines.now }
    ensures events { result.now.line.events ≡ chart_lines lines.now (suc line) }
    ensures partners { (n : ℕ) → HasPartners n lines.now → All (λ m. partner_of m ≤ n) result.now.line.events }
{
    lines[line].as_growing()
}

/// The index of the first event of these ranges, or `other` if there is none.
#[tactic(auto, using(crate::proofs::CompletionLemmas::QueryLemmas::first_of_ranges))]
fn first_index(other: u32, earlier: &[EventRange]) -> u32
    requires { All IsRange earlier.now }
    ensures { result ≡ first_index other (events_in earlier.now) }
{
    let Some((range, _)) = earlier.split_first() else {
        return other;
    };
    range.first.index
}

/// A possible chart whose instances finish what a message makes them do before they receive again. It answers up to
/// which event this puts the line of a receive before it. A contract sees the chart's lines.
#[derive(Drop)]
pub struct Completion<'a> {
    closure: &'a Closure<'a>,
    rows: Vec<Row>,
}

impl<'a> Model for Completion<'a> {
    ghost use Rattle.std.specs.Prelude.{List};
    ghost use Rattle.chart.specs.Charts.{LineView};
    ghost use Rattle.closure.specs.Closures.{IsPossibleChart};
    ghost use Rattle.reordering.specs.Completion.Tables.{HaveLastSends};

    ghost Value = { List LineView };

    ghost view = { λ c. c.closure.now };

    ghost invariant = { λ c. HaveLastSends c.closure.now c.rows.items × IsPossibleChart c.closure.now };
}

impl<'a> Completion<'a> {
    /// The completion of a chart, made in one pass over each line. It keeps two numbers for each event.
    ///
    /// F6: it fails only if there is no memory.
    pub fn of(alloc: Global, closure: &'a Closure<'a>) -> Result<Completion<'a>, AllocError>
        ensures { IfOk result (λ completion. completion ≡ closure.now) }
    {
        let lines = closure.lines();
        let instances = closure.len();
        let mut rows = Vec::new(alloc);
        for line in 0..instances {
            let row = last_sends_of(alloc, line_at(lines, line), instances)?;
            rows.push(row)?;
        }
        Ok(Completion { closure, rows })
    }

    /// The last sends of the event at a place of a line.
    fn at(&self, line: usize, place: usize) -> LastSends
        requires line { line < length self.now }
        requires place { place < length (chart_lines self.now (suc line)) }
        ensures value { AreLastSends (chart_lines self.now (suc line)) place result }
        ensures possible { IsPossibleChart self.now }
    {
        self.rows[line].at(place)
    }

    /// The last send of a line that handles only receives among this number of first events, or 0.
    fn last_within(&self, line: usize, events: usize) -> u32
        requires line { line < length self.now }
        requires events { events ≤ length (chart_lines self.now (suc line)) }
        ensures { IsLastSettled (IsAmong events) (chart_lines self.now (suc line)) result }
    {
        if events == 0 {
            return 0;
        }
        self.at(line, events - 1).within
    }

    /// The same as [`Completion::finished_before`], for a receive.
    fn before_receive(&self, receive: &EventNo, earlier: &[EventRange]) -> u32
        requires receive { (q : ℕ)
            × IsReceiveFrom (chart_lines self.now) q (at receive.now.instance receive.now.index) }
        requires report { IsReportIn (chart_lines self.now)
            (record { receive = receive.now; earlier = events_in earlier.now }) }
        requires ranges { All IsRange earlier.now }
        ensures { IsFinishedUpTo (chart_lines self.now) (at receive.now.instance receive.now.index) result }
    {
        let line = receive.instance.place();
        let first = first_index(receive.index, earlier);
        let within = self.last_within(line, first as usize - 1);
        let same_sender = self.at(line, receive.index as usize - 1).same_sender;
        within.max(same_sender)
    }

    /// The number of the last send of a receive's line that is finished before it, or 0 if there is none. If instances
    /// finish, all events of the line up to this send come before the receive. Of the later ones, only those do that
    /// the chart puts before it anyway. Nothing is finished before an event that is no receive, so the answer for it is
    /// 0. The ranges are the races of the receive's report.
    ///
    /// It takes two look-ups, however long the line is.
    pub fn finished_before(&self, receive: &EventNo, earlier: &[EventRange]) -> u32
        requires report { IsReportIn (chart_lines self.now)
            (record { receive = receive.now; earlier = events_in earlier.now }) }
        requires ranges { All IsRange earlier.now }
        ensures { IsFinishedUpTo (chart_lines self.now) (at receive.now.instance receive.now.index) result }
    {
        match self.closure.send_of(receive) {
            Some(_) => self.before_receive(receive, earlier),
            None => 0,
        }
    }
}
