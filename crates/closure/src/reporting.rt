//! The reports of the receives, one after another.
ghost use Rattle.std.specs.Prelude.{◌≡◌, ◌<◌, ◌≤◌, ◌⊎◌, ◌++◌, ◌∷◌, [], suc, length, List, All, vec_capacity, IfOk};
ghost use Rattle.std.specs.Prelude.{IfSome, OnSome, MatchOption};
ghost use Rattle.chart.specs.declared.line.TheConstants.{MAX_EVENTS};
ghost use Rattle.chart.specs.Charts.{at, chart_lines};
ghost use Rattle.chart.specs.Ranges.{IsRange, events_in};
ghost use Rattle.chart.specs.Reports.{ReportView, AreReports};
ghost use Rattle.closure.specs.Closures.{IsPossibleChart};
ghost use Rattle.closure.specs.Searches.{HasKnowledge};
ghost use Rattle.closure.specs.Reported.{HaveReported, IsFound, IsReportAt, reports_left};

use crate::knowing::knowledge;
use crate::linked::Linked;
use crate::partner::Partner;
use crate::row::{Row, value_at};
use chart::{EventNo, EventRange, InstanceNo, MAX_EVENTS, RangesBuilder, Report};
use online_races::find_races;
use std::alloc::{AllocError, Global};
use std::marker::Model;

/// The place of a receive, and the send that it belongs to.
#[derive(Clone, Copy)]
pub struct Receive {
    line: usize,
    place: usize,
    /// The place of the sender's line.
    sender: u8,
    /// The send's index on this line, from 1.
    index: u16,
}

/// The next receive of a line, from a place on.
fn next_on(linked: &Linked<'_>, line: usize, from: usize) -> Option<Receive>
    requires line { line < length linked.now }
    requires from { from ≤ length (chart_lines linked.now (suc line)) }
    ensures receive { IfSome result (IsFound linked.now) }
    ensures line { IfSome result (λ receive. receive.line ≡ line) }
    ensures later { IfSome result (λ receive. from ≤ receive.place) }
    ensures reported { (reports : List ReportView) → HaveReported linked.now line from reports
        → MatchOption result (HaveReported linked.now (suc line) 0 reports)
        (λ receive. HaveReported linked.now line receive.place reports) }
{
    for place in from..linked.len_of(line) {
        if let Partner::Sender {
            line: sender,
            index,
        } = linked.partner_of(line, place)
        {
            return Some(Receive {
                line,
                place,
                sender,
                index,
            });
        }
    }
    None
}

/// The next receive by instance and index, from a place of a line on.
fn next_receive(linked: &Linked<'_>, line: usize, place: usize) -> Option<Receive>
    requires line { line < length linked.now }
    requires place { place ≤ length (chart_lines linked.now (suc line)) }
    ensures receive { IfSome result (IsFound linked.now) }
    ensures later { IfSome result
        (λ receive. (line < receive.line) ⊎ ((receive.line ≡ line) × (place ≤ receive.place))) }
    ensures reported { (reports : List ReportView) → HaveReported linked.now line place reports
        → MatchOption result (AreReports linked.now reports)
        (λ receive. HaveReported linked.now receive.line receive.place reports) }
{
    let mut from = place;
    for next in line..linked.len() {
        if let Some(receive) = next_on(linked, next, from) {
            return Some(receive);
        }
        from = 0;
    }
    None
}

/// Replaces the ranges in the list by those of a receive's races: the races of its line before it, later than what its
/// send knows of the line. It returns the receive.
fn find_report(
    linked: &Linked<'_>,
    known: &[Row<u32>],
    receive: &Receive,
    found: &mut Vec<EventRange>,
) -> EventNo
    requires known { HasKnowledge linked.now known.now }
    requires receive { IsFound linked.now receive.now }
    requires places { MAX_EVENTS ≤ vec_capacity found.old }
    ensures report { IsReportAt (chart_lines linked.now) (at (suc receive.now.line) (suc receive.now.place))
        (record { receive = result; earlier = events_in found.new.items }) }
    ensures ranges { All IsRange found.new.items }
    ensures places { vec_capacity found.new ≡ vec_capacity found.old }
{
    let sender = receive.sender as usize;
    let region = linked.event_at(receive.line, receive.place).region();
    let entry = value_at(known, sender, receive.index as usize - 1);
    find_races(
        found,
        linked.line_of(receive.line).as_growing(),
        receive.place,
        entry,
        InstanceNo::at_place(sender),
        region,
    );
    EventNo {
        instance: InstanceNo::at_place(receive.line),
        index: receive.place as u32 + 1,
    }
}

/// Visits the receives of a chart, by instance and index, and finds the races of each. It keeps only those of the last
/// one, so no receive needs memory. A contract sees the chart's lines, how far the reporter has come, and the races
/// that it found last.
#[derive(Drop)]
pub struct Reporter<'a> {
    linked: Linked<'a>,
    known: Vec<Row<u32>>,
    /// The line of the next event, and its place.
    line: usize,
    place: usize,
    /// The list has places for the races of any receive.
    found: Vec<EventRange>,
}

impl<'a> Model for Reporter<'a> {
    ghost use Rattle.std.specs.Prelude.{◌≤◌, All, vec_capacity};
    ghost use Rattle.chart.specs.declared.line.TheConstants.{MAX_EVENTS};
    ghost use Rattle.chart.specs.Ranges.{IsRange, events_in};
    ghost use Rattle.closure.specs.Reported.{ReporterView, IsReporting};

    ghost Value = { ReporterView };

    ghost view = { λ r. record {
      lines = r.linked;
      line = r.line;
      place = r.place;
      earlier = events_in r.found.items;
    } };

    ghost invariant = { λ r. IsReporting r.linked r.known.items r.line r.place × All IsRange r.found.items
        × (MAX_EVENTS ≤ vec_capacity r.found) };
}

/// A reporter that begins with the first event of a chart.
pub fn reporter_of<'a>(alloc: Global, linked: Linked<'a>) -> Result<Reporter<'a>, AllocError>
    requires { IsPossibleChart linked }
    ensures { IfOk result (λ reporter. reporter ≡ record { lines = linked.entry; line = 0; place = 0; earlier = [] }) }
{
    let known = knowledge(alloc, &linked)?;
    let found = Vec::with_capacity(alloc, MAX_EVENTS)?;
    Ok(Reporter {
        linked,
        known,
        line: 0,
        place: 0,
        found,
    })
}

impl<'a> Reporter<'a> {
    /// Goes on to the next receive and finds its races, or answers that none is left. It takes no memory.
    pub fn next(&mut self) -> Option<EventNo>
        ensures lines { self.new.lines ≡ self.old.lines }
        ensures reported { (reports : List ReportView)
            → HaveReported self.old.lines self.old.line self.old.place reports
            → MatchOption result (AreReports self.old.lines reports)
            (λ receive. HaveReported self.old.lines self.new.line self.new.place
            (reports ++ record { receive = receive; earlier = self.new.earlier } ∷ [])) }
        ensures whole { OnSome result
            ((reports : List ReportView) → HaveReported self.new.lines self.new.line self.new.place reports
            → (more : List ReportView) × AreReports self.new.lines (reports ++ more)) }
        ensures instance { IfSome result (λ receive. receive.instance ≤ length self.new.lines) }
        ensures fewer { OnSome result (reports_left self.new < reports_left self.old) }
    {
        let Some(receive) = next_receive(&self.linked, self.line, self.place) else {
            return None;
        };
        let event = find_report(
            &self.linked,
            self.known.as_slice(),
            &receive,
            &mut self.found,
        );
        self.line = receive.line;
        self.place = receive.place + 1;
        Some(event)
    }

    /// The races of the receive that [`Reporter::next`] returned last: ranges of earlier events, in the order of the
    /// line.
    pub fn earlier(&self) -> &[EventRange]
        ensures events { events_in result.now ≡ self.now.earlier }
        ensures each { All IsRange result.now }
    {
        self.found.as_slice()
    }
}

/// The report of a receive, with the events of these ranges.
fn report_of(alloc: Global, receive: EventNo, earlier: &[EventRange]) -> Result<Report, AllocError>
    requires { All IsRange earlier.now }
    ensures { IfOk result (λ report. report ≡ record { receive = receive; earlier = events_in earlier.now }) }
{
    let mut builder = RangesBuilder::new(alloc);
    for passed in 0..earlier.len() {
        builder.put_before(earlier[earlier.len() - 1 - passed])?;
    }
    Ok(Report::new(receive, builder.finish()))
}

/// The reports of all receives, by instance and index.
pub fn reports_of(alloc: Global, linked: Linked<'_>) -> Result<Vec<Report>, AllocError>
    requires { IsPossibleChart linked }
    ensures { IfOk result (λ reports. AreReports linked.entry reports.items) }
{
    let mut reporter = reporter_of(alloc, linked)?;
    let mut reports = Vec::new(alloc);
    while let Some(receive) = reporter.next() {
        let report = report_of(alloc, receive, reporter.earlier())?;
        reports.push(report)?;
    }
    Ok(reports)
}
