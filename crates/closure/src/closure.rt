//! The closure of a chart.
ghost use Rattle.std.specs.Prelude.{◌≡◌, ◌⊎◌, ℕ, [], length, ◌↔◌, IsTrue, IfOk, OnOk, IfErr, MatchOption};
ghost use Rattle.chart.specs.Charts.{chart_lines, IsPossible, IsReceiveFrom, BelongsTo};
ghost use Rattle.chart.specs.Order.{Before};
ghost use Rattle.closure.specs.Closures.{IsPossibleChart};
ghost use Rattle.closure.specs.Faults.{place_of, Refuses};
ghost use Rattle.closure.specs.Searches.{IsSend, IsReached};
ghost use Rattle.chart.specs.Reports.{AreReports};

use crate::error::ChartError;
use crate::linked::Linked;
use crate::linking::partners_of;
use crate::numbers::Numbers;
use crate::order::is_before;
use crate::partner::Partner;
use crate::past::{send_of, up_to};
use crate::reporting::{Reporter, reporter_of, reports_of};
use crate::row::Row;
use crate::running::runs;
use chart::{Chart, EventNo, Line, Report};
use std::alloc::{AllocError, Global};
use std::marker::Model;

/// A possible chart, with the partner of each event. It answers which events the enforced order puts before others. A
/// contract sees the chart's lines.
#[derive(Drop)]
pub struct Closure<'a> {
    alloc: Global,
    lines: &'a [Line],
    partners: Vec<Row<Partner>>,
}

impl<'a> Model for Closure<'a> {
    ghost use Rattle.std.specs.Prelude.{List};
    ghost use Rattle.chart.specs.Charts.{LineView};
    ghost use Rattle.closure.specs.Closures.{AreLinked, IsPossibleChart};

    ghost Value = { List LineView };

    ghost view = { λ c. c.lines.now };

    ghost invariant = { λ c. AreLinked c.lines.now c.partners.items × IsPossibleChart c.lines.now };
}

impl<'a> Closure<'a> {
    /// The closure of a possible chart: one that is the chart of a history that is legal for some number of slots. Any
    /// other chart is refused, by the first of F16, F17 and F18 that applies. Of F16 and F17, that of the first receive
    /// counts, by instance and index.
    ///
    /// F6 may come at any point.
    pub fn of(alloc: Global, chart: &'a Chart) -> Result<Closure<'a>, ChartError>
        ensures ok { IfOk result (λ closure. closure ≡ chart.now) }
        ensures possible { OnOk result (IsPossible (length chart.now) (chart_lines chart.now)) }
        ensures refused { IfErr result (Refuses (chart_lines chart.now)) }
        ensures impossible { IfErr result
            (λ e. (e ≡ ChartError.Memory) ⊎ (IsPossible (length chart.now) (chart_lines chart.now) → ⊥)) }
    {
        let lines = chart.lines();
        let partners = match partners_of(alloc, lines) {
            Ok(partners) => partners,
            Err(error) => return Err(error),
        };
        if !runs(alloc, &Linked::new(lines, partners.as_slice()))? {
            return Err(ChartError::Cyclic);
        }
        Ok(Closure {
            alloc,
            lines,
            partners,
        })
    }

    /// The closure of a chart that is known to be possible. F6: it fails only if there is no memory.
    pub fn of_possible(alloc: Global, chart: &'a Chart) -> Result<Closure<'a>, AllocError>
        requires { IsPossible (length chart.now) (chart_lines chart.now) }
        ensures { IfOk result (λ closure. closure ≡ chart.now) }
    {
        match Closure::of(alloc, chart) {
            Ok(closure) => Ok(closure),
            Err(ChartError::Memory) => Err(AllocError),
            Err(_) => unreachable!(),
        }
    }

    /// The lines with their partners.
    fn linked(&self) -> Linked<'_>
        ensures lines { result ≡ self.now }
        ensures chart { IsPossibleChart self.now }
    {
        Linked::new(self.lines, self.partners.as_slice())
    }

    /// The number of lines.
    pub fn len(&self) -> usize
        ensures value { result ≡ length self.now }
        ensures possible { IsPossibleChart self.now }
    {
        self.lines.len()
    }

    /// Whether the enforced order puts one event before the other. The answer is false if one of them is no event of
    /// the chart.
    ///
    /// F6: it fails only if there is no memory.
    pub fn before(&self, earlier: EventNo, later: EventNo) -> Result<bool, AllocError>
        ensures { IfOk result (λ before. IsTrue before
            ↔ Before (chart_lines self.now) (place_of earlier) (place_of later)) }
    {
        let linked = self.linked();
        is_before(
            self.alloc,
            &linked,
            &earlier,
            later.instance.place(),
            later.index as usize,
        )
    }

    /// The chart's lines.
    pub fn lines(&self) -> &[Line]
        ensures { result.now ≡ self.now }
    {
        self.lines
    }

    /// The send that a receive belongs to. There is none exactly if the event is no receive of the chart.
    pub fn send_of(&self, receive: &EventNo) -> Option<EventNo>
        ensures { MatchOption result
            ((q : ℕ) → IsReceiveFrom (chart_lines self.now) q (place_of receive.now) → ⊥)
            (λ send. BelongsTo (chart_lines self.now) (place_of send) (place_of receive.now)) }
    {
        let linked = self.linked();
        send_of(&linked, receive.instance.place(), receive.index as usize)
    }

    /// For each line, by instance, how many of its first events are the send or before it. No other event is.
    ///
    /// F6: it fails only if there is no memory.
    pub fn up_to(&self, send: &EventNo) -> Result<Numbers, AllocError>
        requires { IsSend (chart_lines self.now) (place_of send.now) }
        ensures whole { IfOk result (λ fronts. length fronts ≡ length self.now) }
        ensures reached { IfOk result (IsReached (chart_lines self.now) (place_of send.now)) }
    {
        let linked = self.linked();
        up_to(
            self.alloc,
            &linked,
            send.instance.place(),
            send.index as usize,
        )
    }

    /// A reporter, which visits the receives, by instance and index, and finds the report of each without memory.
    ///
    /// One search for each line serves all its sends. F6: it fails only if there is no memory.
    pub fn reporter(&self) -> Result<Reporter<'_>, AllocError>
        ensures { IfOk result (λ reporter. reporter ≡ record { lines = self.now; line = 0; place = 0; earlier = [] }) }
    {
        reporter_of(self.alloc, self.linked())
    }

    /// The report of each receive, by instance and index.
    ///
    /// One search for each line serves all its sends. The time of a report grows with the runs of events that it passes
    /// and finds, or in a coregion with the events. F6: it fails only if there is no memory.
    pub fn races(&self) -> Result<Vec<Report>, AllocError>
        ensures { IfOk result (λ reports. AreReports self.now reports.items) }
    {
        reports_of(self.alloc, self.linked())
    }
}
