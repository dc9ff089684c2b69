//! The races of a log's recording by their verdicts.
ghost use Rattle.std.specs.Prelude.{◌≡◌, ◌++◌, List, length, map, All, IfOk, OnOk};
ghost use Rattle.std.specs.List.{list_any};
ghost use Rattle.chart.specs.Charts.{chart_lines, IsNumbered, IsPossible};
ghost use Rattle.chart.specs.Ranges.{IsRange};
ghost use Rattle.cmd_import_log.specs.Recording.{lent_of};
ghost use Rattle.race_verdicts.specs.Luck.Recorded.{IsRecording};
ghost use Rattle.races_text.specs.Judged.LogVerdicts.{verdict_in};
ghost use Rattle.races_text.specs.Judged.Parts.{AreParts};
ghost use Rattle.races_text.specs.declared.judged.part.Part.{Part};
ghost use Rattle.cmd_page.specs.Marks.Judging.{judged_pair, AreJudged, AreJudgedRaces, IsOfLines, claims, claims_none};
ghost use Rattle.cmd_page.specs.Marks.Pairing.{HasRange};

use crate::marks::RaceRange;
use chart::{EventNo, Report};
use closure::Closure;
use cmd_import_log::LogRecording;
use race_verdicts::Verdict;
use race_verdicts::luck::Judge;
use races_text::judged::{LogVerdicts, Part, all_parts};
use std::alloc::{AllocError, Global};

/// Adds the races of a receive with these parts of its earlier events.
fn add_parts(
    pairs: &mut Vec<RaceRange>,
    receive: &EventNo,
    parts: &[Part],
) -> Result<(), AllocError>
    requires has { All HasRange pairs.old.items }
    requires ranges { All (λ part. IsRange part.range) parts.now }
    ensures pairs { OnOk result (pairs.new.items ≡ pairs.old.items ++ map (judged_pair receive.now) parts.now) }
    ensures has { OnOk result (All HasRange pairs.new.items) }
{
    for part in parts {
        pairs.push(RaceRange {
            receive: *receive,
            earlier: part.range,
            verdict: Some(part.verdict),
        })?;
    }
    Ok(())
}

/// Adds the races of a report by their verdicts.
fn add_judged(
    alloc: Global,
    pairs: &mut Vec<RaceRange>,
    verdicts: &LogVerdicts<'_>,
    report: &Report,
) -> Result<(), AllocError>
    requires has { All HasRange pairs.old.items }
    requires races { IsOfLines verdicts.now.judge.lines report.now }
    ensures pairs { OnOk result ((parts : List Part)
        × AreParts (verdict_in verdicts.now.judge.lines verdicts.now.judge.recording report.now.receive) report.now.earlier parts
        × (pairs.new.items ≡ pairs.old.items ++ map (judged_pair report.now.receive) parts)) }
    ensures has { OnOk result (All HasRange pairs.new.items) }
{
    let receive = report.receive();
    let earlier = report.earlier().as_slice();
    let parts = all_parts(alloc, verdicts, &receive, earlier)?;
    let list = parts.as_slice();
    add_parts(pairs, &receive, list)?;
    Ok(())
}

/// The races of these reports by their verdicts.
fn judged_pairs(
    alloc: Global,
    verdicts: &LogVerdicts<'_>,
    reports: &[Report],
) -> Result<Vec<RaceRange>, AllocError>
    requires { All (IsOfLines verdicts.now.judge.lines) reports.now }
    ensures judged { IfOk result (λ pairs. AreJudged (verdict_in verdicts.now.judge.lines verdicts.now.judge.recording) reports.now
        pairs.items) }
    ensures have { IfOk result (λ pairs. All HasRange pairs.items) }
{
    let mut pairs = Vec::new(alloc);
    for report in reports {
        add_judged(alloc, &mut pairs, verdicts, report)?;
    }
    Ok(pairs)
}

/// The verdicts on the races of a recording, with the closure of its chart.
fn verdicts_of<'a>(
    alloc: Global,
    recording: &'a LogRecording<'_>,
    closure: &'a Closure<'a>,
) -> Result<LogVerdicts<'a>, AllocError>
    requires { IsRecording closure.now (lent_of recording.now) }
    ensures { IfOk result (λ verdicts. verdicts.judge
        ≡ record { lines = closure.now; recording = lent_of recording.now }) }
{
    match Judge::of(alloc, recording.recording(), closure) {
        Ok(judge) => Ok(LogVerdicts { judge }),
        Err(error) => Err(error),
    }
}

/// The races of a recording by their verdicts. F6: it fails only if there is no memory.
pub(crate) fn judged_races(
    alloc: Global,
    recording: &LogRecording<'_>,
) -> Result<Vec<RaceRange>, AllocError>
    requires possible { IsPossible (length recording.now.imported.chart) (chart_lines recording.now.imported.chart) }
    requires keeps { IsRecording recording.now.imported.chart (lent_of recording.now) }
    requires numbered { IsNumbered recording.now.imported.chart }
    ensures judged { IfOk result (λ races. AreJudgedRaces recording.now.imported.chart (lent_of recording.now) races.items) }
    ensures have { IfOk result (λ races. All HasRange races.items) }
{
    let closure = Closure::of_possible(alloc, &recording.imported.chart)?;
    let verdicts = verdicts_of(alloc, recording, &closure)?;
    let reports = closure.races()?;
    let races = judged_pairs(alloc, &verdicts, reports.as_slice())?;
    Ok(races)
}

/// Whether a race with this verdict is claimed, if it is known. A race that is begun in the middle isn't.
fn claims(verdict: Option<Verdict>) -> bool
    ensures { result ≡ claims verdict }
{
    match verdict {
        None => true,
        Some(verdict) => !matches!(verdict, Verdict::BegunInTheMiddle),
    }
}

/// Whether one of these races is claimed.
fn claims_any(races: &[RaceRange]) -> bool
    ensures { result ≡ list_any (λ race. claims race.verdict) races.now }
{
    races.iter().any(|race| claims(race.verdict))
}

/// Whether there are races, and none of them is claimed: each is begun in the middle.
pub(crate) fn claims_none(races: &[RaceRange]) -> bool
    ensures { result ≡ claims_none races.now }
{
    if races.is_empty() {
        false
    } else {
        !claims_any(races)
    }
}
