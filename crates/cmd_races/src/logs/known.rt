//! The races of a log's recording.
ghost use Rattle.std.specs.Prelude.{◌≡◌, length, IfOk, IfErr};
ghost use Rattle.chart.specs.Charts.{IsNumbered};
ghost use Rattle.cmd_import_log.specs.Recording.{lent_of};
ghost use Rattle.race_verdicts.specs.Luck.Recorded.{IsRecording};
ghost use Rattle.cmd_races.specs.Judging.{ShowsJudged};
ghost use Rattle.races_text.specs.Judged.LogVerdicts.{verdict_in};
ghost use Rattle.cmd_races.specs.Logs.Showing.{status_of_summary, shown_of_summary};
ghost use Rattle.cmd_races.specs.Logs.Showing.{ShowsKnown, ShowsOther, ShowsRecording};

use crate::{LuckWanted, show_judged, show_unknown};
use closure::Closure;
use cmd_base::columns::{ColumnError, columns_in};
use cmd_base::{ProgramError, Status, closure_of};
use cmd_import_log::{ImportedLog, LogRecording};
use race_verdicts::luck::Judge;
use races_text::judged::{LogVerdicts, RaceSummary};
use std::alloc::{AllocError, Global};
use texts::Out;

/// The answer after the races of a log were written.
#[derive(Clone, Copy, Debug, PartialEq, Eq)]
pub struct ShownRaces {
    /// Whether one is shown, if that is known.
    pub status: Status,
    /// Whether there are selected races and none is claimed: each is begun in the middle.
    pub is_unclaimed: bool,
}

/// The verdicts on the races of a recording, with the closure of its chart.
fn verdicts_of<'a>(
    alloc: Global,
    recording: &'a LogRecording<'_>,
    closure: &'a Closure<'a>,
) -> Result<LogVerdicts<'a>, ColumnError>
    requires { IsRecording closure.now (lent_of recording.now) }
    ensures judge { IfOk result (λ verdicts. verdicts.judge
        ≡ record { lines = closure.now; recording = lent_of recording.now }) }
    ensures memory { IfErr result (λ error. error ≡ ColumnError.Program ProgramError.Memory) }
{
    match Judge::of(alloc, recording.recording(), closure) {
        Ok(judge) => Ok(LogVerdicts { judge }),
        Err(AllocError) => Err(ColumnError::Program(ProgramError::Memory)),
    }
}

/// Writes the wanted races of a recording for which luck is known, with the words of their verdicts. Returns their
/// summary.
fn show_known<W: Out>(
    alloc: Global,
    recording: &LogRecording<'_>,
    wanted: &LuckWanted<'_>,
    out: &mut W,
) -> Result<RaceSummary, ColumnError>
    requires names { length recording.now.imported.diagnostics.names ≡ length recording.now.imported.chart }
    requires keeps { IsRecording recording.now.imported.chart (lent_of recording.now) }
    requires numbered { IsNumbered recording.now.imported.chart }
    ensures { ShowsJudged W.sink (verdict_in recording.now.imported.chart (lent_of recording.now)) out.old out.new result
        wanted.now (recording.now.imported.diagnostics.names, recording.now.imported.chart) }
{
    let names = &recording.imported.diagnostics.names;
    let instances = columns_in(alloc, names, wanted.races.only)?;
    let closure = closure_of(alloc, names, &recording.imported.chart)?;
    let verdicts = verdicts_of(alloc, recording, &closure)?;
    show_judged(
        alloc,
        names,
        &closure,
        instances.as_slice(),
        wanted,
        &verdicts,
        out,
    )
}

/// The exit status of races with this summary.
fn status_of(summary: &RaceSummary) -> Status
    ensures { result ≡ status_of_summary summary.now }
{
    if summary.shown {
        return Status::Races;
    }
    if summary.claims_none() {
        Status::NotKnown
    } else {
        Status::NoRaces
    }
}

/// The answer for races with this summary.
fn shown_by(summary: &RaceSummary) -> ShownRaces
    ensures { result ≡ shown_of_summary summary.now }
{
    ShownRaces {
        status: status_of(summary),
        is_unclaimed: summary.claims_none(),
    }
}

/// Writes the races of a recording for which luck is known.
fn show_judged_races<W: Out>(
    alloc: Global,
    recording: &LogRecording<'_>,
    wanted: &LuckWanted<'_>,
    out: &mut W,
) -> Result<ShownRaces, ColumnError>
    requires names { length recording.now.imported.diagnostics.names ≡ length recording.now.imported.chart }
    requires keeps { IsRecording recording.now.imported.chart (lent_of recording.now) }
    requires numbered { IsNumbered recording.now.imported.chart }
    ensures { ShowsKnown W.sink out.old out.new result wanted.now
        (recording.now.imported.diagnostics.names, recording.now.imported.chart) (lent_of recording.now) }
{
    match show_known(alloc, recording, wanted, out) {
        Ok(summary) => Ok(shown_by(&summary)),
        Err(error) => Err(error),
    }
}

/// Writes the races of a recording for which luck isn't known, without words.
fn show_other_races<W: Out>(
    alloc: Global,
    imported: &ImportedLog,
    wanted: &LuckWanted<'_>,
    out: &mut W,
) -> Result<ShownRaces, ColumnError>
    requires { length imported.now.diagnostics.names ≡ length imported.now.chart }
    ensures { ShowsOther W.sink out.old out.new result wanted.now
        (imported.now.diagnostics.names, imported.now.chart) }
{
    match show_unknown(
        alloc,
        &imported.diagnostics.names,
        &imported.chart,
        wanted,
        out,
    ) {
        Ok(status) => Ok(ShownRaces {
            status,
            is_unclaimed: false,
        }),
        Err(error) => Err(error),
    }
}

/// Writes the wanted races of a recording. If luck is known, they have the words of their verdicts.
pub(crate) fn show_recording<W: Out>(
    alloc: Global,
    recording: &LogRecording<'_>,
    wanted: &LuckWanted<'_>,
    out: &mut W,
) -> Result<ShownRaces, ColumnError>
    requires names { length recording.now.imported.diagnostics.names ≡ length recording.now.imported.chart }
    requires keeps { IsRecording recording.now.imported.chart (lent_of recording.now) }
    requires numbered { IsNumbered recording.now.imported.chart }
    ensures { ShowsRecording W.sink out.old out.new result wanted.now recording.now }
{
    if recording.is_known {
        show_judged_races(alloc, recording, wanted, out)
    } else {
        show_other_races(alloc, &recording.imported, wanted, out)
    }
}
