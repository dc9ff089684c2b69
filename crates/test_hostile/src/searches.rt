//! Tests of searches and audits of the charts of worked schedules, with each growth of memory refused in turn. Each
//! refused call is made once more, and then returns its full answer.
use crate::calls::{are, every_growth_was_refused, holds};
use crate::replays::{outcome_of, schedule_of};
use crate::schedules::WORKED;
use chart::{Chart, EventNo, Report};
use closure::{Closure, audit};
use std::alloc::Global;
use std::process::Abort;
use std::test::Fail;

/// The search over this chart.
fn closure_of<'a>(rt: &impl Abort, alloc: Global, chart: &'a Chart) -> Closure<'a> {
    match Closure::of(alloc, chart) {
        Ok(closure) => closure,
        Err(_) => Closure::of(alloc, chart).expect(rt, "a closure"),
    }
}

/// A copy of the event.
fn anew(event: &EventNo) -> EventNo {
    EventNo {
        instance: event.instance,
        index: event.index,
    }
}

/// Whether an event is before another one.
fn is_before(rt: &impl Abort, closure: &Closure, earlier: &EventNo, later: &EventNo) -> bool {
    match closure.before(anew(earlier), anew(later)) {
        Ok(before) => before,
        Err(_) => closure
            .before(anew(earlier), anew(later))
            .expect(rt, "an answer"),
    }
}

/// The reports that the search finds.
fn races_of(rt: &impl Abort, closure: &Closure) -> Vec<Report> {
    match closure.races() {
        Ok(found) => found,
        Err(_) => closure.races().expect(rt, "reports"),
    }
}

/// Asserts that the report is the other one, and that none of its events is before the receive.
fn is_right(rt: &impl Abort, closure: &Closure, report: &Report, other: &Report) {
    holds(rt, "the same report", report.is(other));
    let receive = report.receive();
    for earlier in report.earlier().iter() {
        let before = is_before(rt, closure, &earlier, &receive);
        holds(rt, "no order", !before);
    }
}

/// Asserts that the search finds these reports, and that none of them has an event before its receive.
fn finds(rt: &impl Abort, closure: &Closure, reports: &[Report]) {
    let found = races_of(rt, closure);
    are(rt, "reports", found.len(), reports.len());
    for (report, other) in found.iter().zip(reports) {
        is_right(rt, closure, report, other);
    }
}

/// Asserts that the audit accepts the chart with its reports.
fn accepts(rt: &impl Abort, alloc: Global, chart: &Chart, reports: &[Report]) {
    if audit(alloc, chart, reports).is_err() {
        holds(rt, "the audit", audit(alloc, chart, reports).is_ok());
    }
}

/// The outcome of the schedule of the text is searched and audited.
fn is_searched(rt: &impl Abort, alloc: Global, text: &[u8]) {
    let schedule = schedule_of(rt, alloc, text);
    let outcome = outcome_of(rt, alloc, &schedule);
    let closure = closure_of(rt, alloc, outcome.chart());
    finds(rt, &closure, outcome.reports());
    accepts(rt, alloc, outcome.chart(), outcome.reports());
}

#[test]
fn refused_growths_of_searches(rt: HostRuntime) -> Result<(), Fail> {
    for worked in &WORKED {
        is_searched(&rt, rt.alloc(), worked.text);
    }
    every_growth_was_refused(rt.alloc())
}
