//! The races of a log that were luck, and the messages by which they go.
ghost use Rattle.std.specs.Prelude.{◌≡◌, ◌≤◌, length, map, All, IfOk, OnOk};
ghost use Rattle.chart.specs.Charts.{chart_lines, IsNumbered, IsPossible};
ghost use Rattle.cmd_base.specs.Refusals.{Tried};
ghost use Rattle.cmd_import_log.specs.Answers.Claims.{claims_text};
ghost use Rattle.cmd_import_log.specs.Options.{options_view};
ghost use Rattle.cmd_import_log.specs.Recording.{lent_of};
ghost use Rattle.cmd_mend.specs.Claims.{IsUnclaimed, known_status};
ghost use Rattle.cmd_mend.specs.Luck.{AreLucky, AreLuckOf, AddsLuck, AddsReport, IsLuck, MendsLuck, MendsLog};
ghost use Rattle.cmd_mend.specs.Verdicts.{is_luck};
ghost use Rattle.race_verdicts.specs.Luck.Recorded.{IsRecording};
ghost use Rattle.race_verdicts.specs.declared.verdict.Verdict.{Verdict};
ghost use Rattle.races_text.specs.Judged.LogVerdicts.{IsReceiveAndEvent, verdict_in};
ghost use Rattle.repair.specs.Counted.{IsPlaced};

use crate::claims::are_unclaimed;
use crate::showing_all::{WantedAll, mend_all_luck};
use chart::{EventNo, Report};
use closure::Closure;
use cmd_base::{Answer, ProgramError, Status, refused};
use cmd_import_log::answers::{Diagnostics, write_claims};
use cmd_import_log::{LogRecording, Options, recording_in, refused_log, refused_one_end};
use race_verdicts::Verdict;
use race_verdicts::luck::Judge;
use shown_races::{Showing, shown_reports};
use std::alloc::{AllocError, Global};
use texts::Out;

/// Whether the race was luck.
pub(crate) fn is_luck(verdict: Verdict) -> bool
    ensures { result ≡ is_luck verdict }
{
    matches!(verdict, Verdict::Luck)
}

/// Whether the pair was luck.
fn was_luck(judge: &Judge<'_>, receive: &EventNo, event: &EventNo) -> bool
    requires { IsReceiveAndEvent judge.now.lines receive.now event.now }
    ensures { (verdict : Verdict) × verdict_in judge.now.lines judge.now.recording receive.now event.now verdict
        × (result ≡ is_luck verdict) }
{
    is_luck(judge.verdict(*receive, *event))
}

/// Adds the event, if the pair was luck.
fn add_event(
    lucky: &mut Vec<EventNo>,
    judge: &Judge<'_>,
    receive: &EventNo,
    event: &EventNo,
) -> Result<(), AllocError>
    requires { IsReceiveAndEvent judge.now.lines receive.now event.now }
    ensures { OnOk result (AddsLuck (verdict_in judge.now.lines judge.now.recording receive.now) event.now lucky.old.items
        lucky.new.items) }
{
    if was_luck(judge, receive, event) {
        lucky.push(*event)?;
    }
    Ok(())
}

/// The events of a report that were earlier by luck.
fn lucky_events(
    alloc: Global,
    judge: &Judge<'_>,
    receive: &EventNo,
    events: &[EventNo],
) -> Result<Vec<EventNo>, AllocError>
    requires { All (IsReceiveAndEvent judge.now.lines receive.now) events.now }
    ensures { IfOk result (λ lucky. AreLucky (verdict_in judge.now.lines judge.now.recording receive.now) events.now lucky.items) }
{
    let mut lucky = Vec::new(alloc);
    for event in events {
        add_event(&mut lucky, judge, receive, event)?;
    }
    Ok(lucky)
}

/// Adds the report with only the races that were luck, if it has one.
fn add_report(
    alloc: Global,
    lucky: &mut Vec<Report>,
    judge: &Judge<'_>,
    report: &Report,
) -> Result<(), AllocError>
    requires { All (IsReceiveAndEvent judge.now.lines report.now.receive) report.now.earlier }
    ensures { OnOk result (AddsReport (verdict_in judge.now.lines judge.now.recording) report.now lucky.old.items lucky.new.items) }
{
    let receive = report.receive();
    let earlier = report.earlier().listed(alloc)?;
    let events = lucky_events(alloc, judge, &receive, earlier.as_slice())?;
    if events.is_empty() {
        return Ok(());
    }
    let luck = Report::of(alloc, receive, events.as_slice())?;
    lucky.push(luck)?;
    Ok(())
}

/// Of these reports those that have a race of luck, with only such races.
fn lucky_reports(
    alloc: Global,
    judge: &Judge<'_>,
    reports: &[Report],
) -> Result<Vec<Report>, AllocError>
    requires { All (λ report. All (IsReceiveAndEvent judge.now.lines report.receive) report.earlier) reports.now }
    ensures luck { IfOk result (λ lucky. AreLuckOf (verdict_in judge.now.lines judge.now.recording) reports.now lucky.items) }
    ensures placed { IfOk result (λ lucky. All (IsPlaced judge.now.lines) lucky.items) }
{
    let mut lucky = Vec::new(alloc);
    for report in reports {
        add_report(alloc, &mut lucky, judge, report)?;
    }
    Ok(lucky)
}

/// The judge of a recording, with the closure of its chart.
fn judge_of<'a>(
    alloc: Global,
    recording: &'a LogRecording<'_>,
    closure: &'a Closure<'a>,
) -> Result<Judge<'a>, AllocError>
    requires { IsRecording closure.now (lent_of recording.now) }
    ensures { IfOk result (λ judge. judge ≡ record { lines = closure.now; recording = lent_of recording.now }) }
{
    Judge::of(alloc, recording.recording(), closure)
}

/// What is known of luck in a recording.
#[derive(Drop)]
struct Luck {
    /// The reports of the chart that have a race of luck, with only such races.
    reports: Vec<Report>,
    /// Whether races are shown, and none of them is claimed: each is begun in the middle.
    is_unclaimed: bool,
}

/// What is known of luck in a recording, of whose races these are shown. F6: it fails only if there is no memory.
fn luck_of(
    alloc: Global,
    recording: &LogRecording<'_>,
    showing: Showing,
) -> Result<Luck, AllocError>
    requires possible { IsPossible (length recording.now.imported.chart) (chart_lines recording.now.imported.chart) }
    requires keeps { IsRecording recording.now.imported.chart (lent_of recording.now) }
    requires numbered { IsNumbered recording.now.imported.chart }
    ensures luck { IfOk result (λ luck. IsLuck recording.now.imported.chart (lent_of recording.now) luck.reports.items) }
    ensures placed { IfOk result (λ luck. All (IsPlaced recording.now.imported.chart) luck.reports.items) }
    ensures claims { IfOk result (λ luck. IsUnclaimed showing recording.now.imported.chart (lent_of recording.now) luck.is_unclaimed) }
{
    let closure = Closure::of_possible(alloc, &recording.imported.chart)?;
    let judge = judge_of(alloc, recording, &closure)?;
    let found = closure.races()?;
    let reports = lucky_reports(alloc, &judge, found.as_slice())?;
    let shown = shown_reports(alloc, &recording.imported.chart, showing, found)?;
    let is_unclaimed = are_unclaimed(alloc, &judge, shown.as_slice())?;
    Ok(Luck {
        reports,
        is_unclaimed,
    })
}

/// Prints the warnings of the import of a log, and whether no race is claimed.
fn print_claims<V: Out>(files: &[&[u8]], diagnostics: &Diagnostics, is_unclaimed: bool, err: &mut V)
    requires { All (λ e. e.instance ≤ length diagnostics.now.names) diagnostics.now.invented.items }
    ensures { Tried V.sink err.old err.new (claims_text (map (λ file. file.now) files.now) diagnostics.now is_unclaimed) }
{
    let _ = write_claims(files, diagnostics, is_unclaimed, err);
}

/// The exit status: 3, not known, in place of 0, if no race is claimed.
fn known_status(is_unclaimed: bool, status: u8) -> u8
    ensures { result ≡ known_status is_unclaimed status }
{
    if is_unclaimed && status == 0 {
        Status::NotKnown.status()
    } else {
        status
    }
}

/// Mends the races of a recording that were luck, after the import has printed its warnings.
fn mend_recording<W: Out, V: Out>(
    alloc: Global,
    recording: &LogRecording<'_>,
    files: &[&[u8]],
    luck: Luck,
    wanted: &WantedAll,
    out: &mut W,
    err: &mut V,
) -> u8
    requires named { length recording.now.imported.diagnostics.names ≡ length recording.now.imported.chart }
    requires invented { All (λ e. e.instance ≤ length recording.now.imported.diagnostics.names)
        recording.now.imported.diagnostics.invented.items }
    requires luck { IsLuck recording.now.imported.chart (lent_of recording.now) luck.reports.items }
    requires placed { All (IsPlaced recording.now.imported.chart) luck.reports.items }
    requires claims { IsUnclaimed wanted.now.showing recording.now.imported.chart (lent_of recording.now) luck.is_unclaimed }
    ensures { MendsLuck W.sink out.old out.new V.sink err.old err.new (map (λ file. file.now) files.now) wanted.now recording.now
        result }
{
    let Luck {
        reports,
        is_unclaimed,
    } = luck;
    let imported = &recording.imported;
    let names = &imported.diagnostics.names;
    print_claims(files, &imported.diagnostics, is_unclaimed, err);
    let status = mend_all_luck(alloc, names, &imported.chart, reports, wanted, out, err);
    known_status(is_unclaimed, status)
}

/// Adds messages to the chart of a log, which has these texts, as `mend_all` does to that of a file. Only those races
/// are mended and counted that `mscview races --luck` shows. `files` has the names of the texts if there are several,
/// and is empty for one. The warnings of an import go to `err` first.
///
/// `wanted.showing` leaves out races that were luck too: all but receives, or those that end with run to completion.
/// The refusals of an import come first. A log with one end of each message follows (F52), then luck if it isn't known
/// (G1), and then F6: a growth was refused. Answers the exit status: 0 where none of these races is left, 1 where one
/// is, 2 after a refusal. It is 3 in place of 0 if races are shown and each is begun in the middle, so that none is
/// claimed; a line on `err` says so.
pub fn mend_luck_of_log<W: Out, V: Out>(
    alloc: Global,
    options: Options<'_>,
    texts: &[&[u8]],
    files: &[&[u8]],
    wanted: &WantedAll,
    out: &mut W,
    err: &mut V,
) -> u8
    ensures { MendsLog W.sink out.old out.new V.sink err.old err.new (map (λ file. file.now) files.now)
        (options_view options.entry) (map (λ text. text.now) texts.now) wanted.now result }
{
    let recording = match recording_in(alloc, options, texts) {
        Ok(recording) => recording,
        Err(error) => return refused_log(files, &error, err),
    };
    if recording.imported.diagnostics.is_one_ended {
        return refused_one_end(&recording.imported.diagnostics, err);
    }
    if !recording.is_known {
        return refused(&ProgramError::Usage, err);
    }
    match luck_of(alloc, &recording, wanted.showing) {
        Ok(luck) => mend_recording(alloc, &recording, files, luck, wanted, out, err),
        Err(AllocError) => refused(&ProgramError::Memory, err),
    }
}
