//! Tests of reports that aren't those of their chart.
use crate::calls::{event, put};
use chart::{Chart, EventNo, Report};
use closure::{AuditError, audit};
use msc_text::reader::read;
use std::alloc::Global;
use std::process::Abort;

/// The chart of `any_takes_turns`: two instances send to b in turn.
const TURNS: &[u8] =
    b"msc run;\ninstance a;\nout x to b;\nout z to b;\nendinstance;\ninstance b;\nin x from a;\nin y from c;\nin z from a;\nendinstance;\ninstance c;\nout y to b;\nendinstance;\nendmsc;\n";

/// A report of b, by its receive and the numbers of the earlier events.
type Races = (u32, &'static [u32]);

static RIGHT: [Races; 3] = [(1, &[]), (2, &[1]), (3, &[2])];

/// Reports that aren't those of `TURNS`, and the first receive whose report is wrong. A race is missing, a report is
/// missing at either end, or there is one report too many.
static WRONG: [(&[Races], u32); 4] = [
    (&[(1, &[]), (2, &[1]), (3, &[])], 3),
    (&[(1, &[]), (2, &[1])], 3),
    (&[(2, &[1]), (3, &[])], 1),
    (&[(1, &[]), (2, &[1]), (3, &[2]), (2, &[1])], 2),
];

fn b(rt: &impl Abort, index: u32) -> EventNo {
    event(rt, 2, index)
}

/// A report of this receive, with these earlier events.
fn report(rt: &impl Abort, alloc: Global, receive: u32, earlier: &[u32]) -> Report {
    let mut events = Vec::new(alloc);
    for index in earlier {
        put(rt, &mut events, b(rt, *index));
    }
    Report::of(alloc, b(rt, receive), events.as_slice()).expect(rt, "a report")
}

fn reports_of(rt: &impl Abort, alloc: Global, expected: &[Races]) -> Vec<Report> {
    let mut reports = Vec::new(alloc);
    for (receive, earlier) in expected {
        put(rt, &mut reports, report(rt, alloc, *receive, earlier));
    }
    reports
}

/// Asserts the answer of the chart's audit for these reports.
fn answers(
    rt: &impl Abort,
    alloc: Global,
    chart: &Chart,
    expected: &[Races],
    answer: Result<(), AuditError>,
) {
    let reports = reports_of(rt, alloc, expected);
    assert_eq!(rt; audit(alloc, chart, reports.as_slice()), answer);
}

#[test]
fn wrong_reports(rt: HostRuntime) {
    let alloc = rt.alloc();
    let (_, chart) = read(alloc, TURNS).expect(&rt, "a chart");
    for (expected, receive) in &WRONG {
        let wrong = AuditError::WrongReport(b(&rt, *receive));
        answers(&rt, alloc, &chart, expected, Err(wrong));
    }
    answers(&rt, alloc, &chart, &RIGHT, Ok(()));
}
