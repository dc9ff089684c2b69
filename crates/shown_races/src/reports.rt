//! The reports of the races that are shown.
ghost use Rattle.std.specs.Prelude.{◌≡◌, length, filter, false, IfOk, IfSome, MatchOption};
ghost use Rattle.chart.specs.Charts.{at, chart_lines, IsPossible};
ghost use Rattle.chart.specs.Reports.{AreReports, IsReportIn};
ghost use Rattle.reordering.specs.Completion.Orders.{IsFinishedUpTo};
ghost use Rattle.shown_races.specs.Kept.{is_kept_after};
ghost use Rattle.shown_races.specs.Selected.{is_there};
ghost use Rattle.shown_races.specs.Shown.{AreShown};

use crate::kept::is_kept;
use crate::showing::Showing;
use chart::line_events::events_of;
use chart::{Chart, Event, Line, Report};
use closure::Closure;
use reordering::completion::Completion;
use std::alloc::{AllocError, Global};

/// The number of the last send of a receive's line that run to completion puts before the receive, or 0 if there is
/// none. Without `completion` it is 0.
fn passed_by(completion: Option<&Completion<'_>>, report: &Report) -> u32
    requires { IfSome completion (λ completion. IsReportIn (chart_lines completion.now) report.now) }
    ensures { MatchOption completion.entry (result ≡ 0) (λ completion. IsFinishedUpTo (chart_lines completion.now)
        (at report.now.receive.instance report.now.receive.index) result) }
{
    match completion {
        Some(completion) => {
            completion.finished_before(&report.receive(), report.earlier().as_slice())
        }
        None => 0,
    }
}

/// The report with the races that are shown: those with a number above `passed`, and with `only` only receives.
fn shown_report(
    alloc: Global,
    events: &[Event],
    only: bool,
    passed: u32,
    report: &Report,
) -> Result<Report, AllocError>
    ensures { IfOk result (λ shown. shown ≡ record {
      receive = report.now.receive;
      earlier = filter (is_kept_after events.now only passed) report.now.earlier;
    }) }
{
    let earlier = report.earlier().listed(alloc)?;
    let mut kept = Vec::new(alloc);
    for event in earlier.as_slice() {
        if is_kept(events, only, passed, event) {
            kept.push(*event)?;
        }
    }
    Report::of(alloc, report.receive(), kept.as_slice())
}

/// The same for each of a chart's reports. With a completion only the races that remain are shown.
fn selected_reports(
    alloc: Global,
    lines: &[Line],
    only: bool,
    completion: Option<&Completion<'_>>,
    reports: &[Report],
) -> Result<Vec<Report>, AllocError>
    requires possible { IsPossible (length lines.now) (chart_lines lines.now) }
    requires reports { AreReports lines.now reports.now }
    requires completion { IfSome completion (λ completion. completion.now ≡ lines.now) }
    ensures { IfOk result (λ shown. AreShown
        (record { receives = only; run_to_completion = is_there completion.entry }) lines.now shown.items) }
{
    let mut shown = Vec::new(alloc);
    for report in reports {
        let passed = passed_by(completion, report);
        let events = events_of(lines, report.receive().instance);
        let kept = shown_report(alloc, events, only, passed, report)?;
        shown.push(kept)?;
    }
    Ok(shown)
}

/// The reports with all races, or with those of receives.
fn kept_reports(
    alloc: Global,
    lines: &[Line],
    only: bool,
    reports: Vec<Report>,
) -> Result<Vec<Report>, AllocError>
    requires possible { IsPossible (length lines.now) (chart_lines lines.now) }
    requires reports { AreReports lines.now reports.items }
    ensures { IfOk result (λ shown. AreShown
        (record { receives = only; run_to_completion = false }) lines.now shown.items) }
{
    if !only {
        return Ok(reports);
    }
    selected_reports(alloc, lines, only, None, reports.as_slice())
}

/// The reports of a possible chart with only the races that are shown. `reports` are those with all races, and are the
/// result if all are shown.
///
/// F6: it fails only if there is no memory.
pub fn shown_reports(
    alloc: Global,
    chart: &Chart,
    showing: Showing,
    reports: Vec<Report>,
) -> Result<Vec<Report>, AllocError>
    requires possible { IsPossible (length chart.now) (chart_lines chart.now) }
    requires reports { AreReports chart.now reports.items }
    ensures { IfOk result (λ shown. AreShown showing chart.now shown.items) }
{
    let lines = chart.lines();
    if !showing.run_to_completion {
        return kept_reports(alloc, lines, showing.receives, reports);
    }
    let closure = Closure::of_possible(alloc, chart)?;
    let completion = Completion::of(alloc, &closure)?;
    selected_reports(
        alloc,
        lines,
        showing.receives,
        Some(&completion),
        reports.as_slice(),
    )
}
