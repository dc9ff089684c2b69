//! Whether one of a log's races is claimed: if each is begun in the middle, nothing is known of luck.
ghost use Rattle.std.specs.Prelude.{◌≡◌, List, All, IfOk};
ghost use Rattle.cmd_mend.specs.Claims.{summary_after, Sums, SumsAll, AreUnclaimed};
ghost use Rattle.race_verdicts.specs.declared.verdict.Verdict.{Verdict};
ghost use Rattle.races_text.specs.Judged.LogVerdicts.{IsReceiveAndEvent, verdict_in};

use crate::logs::is_luck;
use chart::{EventNo, Report};
use race_verdicts::luck::Judge;
use races_text::judged::RaceSummary;
use std::alloc::{AllocError, Global};

/// The summary with the race of these two events.
fn with_event(
    summary: &RaceSummary,
    judge: &Judge<'_>,
    receive: &EventNo,
    event: &EventNo,
) -> RaceSummary
    requires { IsReceiveAndEvent judge.now.lines receive.now event.now }
    ensures { (verdict : Verdict) × verdict_in judge.now.lines judge.now.recording receive.now event.now verdict
        × (result ≡ summary_after summary.now verdict) }
{
    let verdict = judge.verdict(*receive, *event);
    summary.more(is_luck(verdict), verdict)
}

/// The summary with the races of a receive.
fn with_events(
    summary: RaceSummary,
    judge: &Judge<'_>,
    receive: &EventNo,
    events: &[EventNo],
) -> RaceSummary
    requires { All (IsReceiveAndEvent judge.now.lines receive.now) events.now }
    ensures { Sums (verdict_in judge.now.lines judge.now.recording receive.now) summary events.now result }
{
    let mut sum = summary;
    for event in events {
        sum = with_event(&sum, judge, receive, event);
    }
    sum
}

/// The summary with the races of a report.
fn with_report(
    alloc: Global,
    summary: RaceSummary,
    judge: &Judge<'_>,
    report: &Report,
) -> Result<RaceSummary, AllocError>
    requires { All (IsReceiveAndEvent judge.now.lines report.now.receive) report.now.earlier }
    ensures { IfOk result (λ sum. Sums (verdict_in judge.now.lines judge.now.recording report.now.receive) summary report.now.earlier
        sum) }
{
    let receive = report.receive();
    let earlier = report.earlier().listed(alloc)?;
    Ok(with_events(summary, judge, &receive, earlier.as_slice()))
}

/// The summary of the races of these reports.
fn summary_of(
    alloc: Global,
    judge: &Judge<'_>,
    reports: &[Report],
) -> Result<RaceSummary, AllocError>
    requires { All (λ report. All (IsReceiveAndEvent judge.now.lines report.receive) report.earlier) reports.now }
    ensures { IfOk result (SumsAll (verdict_in judge.now.lines judge.now.recording) reports.now) }
{
    let mut sum = RaceSummary::none();
    for report in reports {
        sum = with_report(alloc, sum, judge, report)?;
    }
    Ok(sum)
}

/// Whether these reports have races, and none of them is claimed: each is begun in the middle.
pub(crate) fn are_unclaimed(
    alloc: Global,
    judge: &Judge<'_>,
    reports: &[Report],
) -> Result<bool, AllocError>
    requires { All (λ report. All (IsReceiveAndEvent judge.now.lines report.receive) report.earlier) reports.now }
    ensures { IfOk result (AreUnclaimed (verdict_in judge.now.lines judge.now.recording) reports.now) }
{
    let sum = summary_of(alloc, judge, reports)?;
    Ok(sum.claims_none())
}
