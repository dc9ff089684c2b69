//! Reports of races.
ghost use Rattle.std.specs.Prelude.{◌≡◌, ◌↔◌, [], length, nat_lt, IfOk, IsOk, IsTrue};
ghost use Rattle.chart.specs.Reports.{has_races};

use crate::instance::EventNo;
use crate::ranges::EventRanges;
use std::alloc::{AllocError, Global};
use std::marker::Model;

/// The races of a receive: the earlier events of its line that come before it only by luck. They don't happen before it
/// in the sense of Lamport's order. They are kept as ranges of neighbours, so a report takes memory by its ranges. A
/// contract sees a record of the receive and of the list of events.
#[derive(Debug, Drop)]
pub struct Report {
    receive: EventNo,
    earlier: EventRanges,
}

impl Model for Report {
    ghost use Rattle.chart.specs.Reports.{ReportView};

    ghost Value = { ReportView };

    ghost view = { λ r. record { receive = r.receive; earlier = r.earlier } };
}

impl Report {
    /// The report with the earlier events of these ranges. It takes no memory.
    #[inline(always)]
    pub fn new(receive: EventNo, earlier: EventRanges) -> Report
        ensures { result ≡ record { receive = receive; earlier = earlier } }
    {
        Report { receive, earlier }
    }

    /// The report with these earlier events, whichever they are.
    ///
    /// F6: it fails only if there is no memory. For no events it takes none.
    pub fn of(alloc: Global, receive: EventNo, earlier: &[EventNo]) -> Result<Report, AllocError>
        ensures value { IfOk result (λ report. report ≡ record { receive = receive; earlier = earlier.now }) }
        ensures none { earlier.now ≡ [] → IsOk result }
    {
        let earlier = EventRanges::of(alloc, earlier)?;
        Ok(Report { receive, earlier })
    }

    #[inline(always)]
    pub fn receive(&self) -> EventNo
        ensures { result ≡ self.now.receive }
    {
        self.receive
    }

    /// The earlier events, in the order of the line.
    #[inline(always)]
    pub fn earlier(&self) -> &EventRanges
        ensures { result.now ≡ self.now.earlier }
    {
        &self.earlier
    }

    /// Whether both have the same receive and the same earlier events.
    pub fn is(&self, other: &Report) -> bool
        ensures { IsTrue result ↔ (self.now ≡ other.now) }
    {
        self.receive == other.receive && self.earlier.is(&other.earlier)
    }

    /// A copy.
    ///
    /// F6: it fails only if there is no memory. Without races it takes none.
    #[inline(always)]
    pub fn copied(&self, alloc: Global) -> Result<Report, AllocError>
        ensures value { IfOk result (λ copy. copy ≡ self.now) }
        ensures none { self.now.earlier ≡ [] → IsOk result }
    {
        let earlier = self.earlier.copied(alloc)?;
        Ok(Report {
            receive: self.receive,
            earlier,
        })
    }
}

/// Whether one of these reports has a race.
pub fn has_races(reports: &[Report]) -> bool
    ensures { result ≡ has_races reports.now }
{
    reports.iter().any(|report| !report.earlier().is_empty())
}
