//! The races of a schedule that may be luck: those by `any`.
ghost use Rattle.std.specs.Prelude.{◌≡◌, length, IfOk, IfErr};
ghost use Rattle.cmd_base.specs.Answers.{Answers};
ghost use Rattle.cmd_base.specs.Texts.{ComesFrom, OfFile};
ghost use Rattle.cmd_base.specs.declared.columns.error.ColumnError.TheVariants.{Program};
ghost use Rattle.schedule.specs.Outcomes.Outcomes.{IsOutcome};
ghost use Rattle.cmd_races.specs.Judging.{ShowsJudged};
ghost use Rattle.cmd_races.specs.Showing.{IsShownOf};
ghost use Rattle.cmd_races.specs.Statuses.{shown_exit};
ghost use Rattle.cmd_races.specs.Schedules.Showing.{run_of, verdict_in, luck_alone, ShowsLucky, ShowsRun, ShowsLuck};

use crate::schedules::verdicts::Makers;
use crate::shown_file::ShownFile;
use crate::{LuckWanted, Wanted, show_judged};
use cmd_base::columns::{ColumnError, columns_in};
use cmd_base::{ProgramError, Source, Status, Text, answered, closure_of, is_schedule};
use races_text::judged::RaceSummary;
use schedule::Schedule;
use schedule::outcomes::Outcome;
use std::alloc::{AllocError, Global};
use texts::Out;

/// The commands that made the receives of a run.
fn makers_of<'a>(
    alloc: Global,
    schedule: &'a Schedule,
    outcome: &'a Outcome<'_>,
) -> Result<Makers<'a>, ColumnError>
    requires { IsOutcome schedule.now outcome.now }
    ensures makers { IfOk result (λ makers. makers ≡ run_of schedule.now outcome.now) }
    ensures memory { IfErr result (λ error. error ≡ ColumnError.Program ProgramError.Memory) }
{
    match Makers::of(
        alloc,
        schedule.commands(),
        outcome.notes(),
        outcome.chart().lines(),
    ) {
        Ok(makers) => Ok(makers),
        Err(AllocError) => Err(ColumnError::Program(ProgramError::Memory)),
    }
}

/// Writes the wanted races of a run by `any`, and returns their summary.
fn show_lucky<W: Out>(
    alloc: Global,
    schedule: &Schedule,
    outcome: &Outcome<'_>,
    wanted: &Wanted<'_>,
    out: &mut W,
) -> Result<RaceSummary, ColumnError>
    requires { IsOutcome schedule.now outcome.now }
    ensures { ShowsJudged W.sink (verdict_in (run_of schedule.now outcome.now)) out.old out.new result
        (luck_alone wanted.now) (outcome.now.names, outcome.now.chart) }
{
    let names = outcome.names();
    let instances = columns_in(alloc, names, wanted.only)?;
    let closure = closure_of(alloc, names, outcome.chart())?;
    let makers = makers_of(alloc, schedule, outcome)?;
    let luck = LuckWanted {
        races: *wanted,
        luck: true,
    };
    show_judged(
        alloc,
        names,
        &closure,
        instances.as_slice(),
        &luck,
        &makers,
        out,
    )
}

/// Writes these races, and returns whether one is shown.
fn show_run<W: Out>(
    alloc: Global,
    schedule: &Schedule,
    outcome: &Outcome<'_>,
    wanted: &Wanted<'_>,
    out: &mut W,
) -> Result<Status, ColumnError>
    requires { IsOutcome schedule.now outcome.now }
    ensures { ShowsLucky W.sink (run_of schedule.now outcome.now) out.old out.new result wanted.now
        (outcome.now.names, outcome.now.chart) }
{
    match show_lucky(alloc, schedule, outcome, wanted, out) {
        Ok(summary) => Ok(Status::of(summary.shown)),
        Err(error) => Err(error),
    }
}

/// Writes these races of a schedule. For a chart luck isn't known.
fn show_source<W: Out>(
    alloc: Global,
    source: &Source<'_>,
    wanted: &Wanted<'_>,
    out: &mut W,
) -> Result<Status, ColumnError>
    requires { ComesFrom source.now }
    ensures { ShowsRun W.sink out.old out.new result wanted.now source.now }
{
    match source {
        Source::Run(schedule, outcome) => show_run(alloc, *schedule, outcome, wanted, out),
        Source::Written(_) => Err(ColumnError::Program(ProgramError::Usage)),
    }
}

/// Writes these races of a file.
fn show_text<W: Out>(
    alloc: Global,
    bytes: &[u8],
    wanted: &Wanted<'_>,
    out: &mut W,
) -> Result<ShownFile, ColumnError>
    ensures { OfFile Program (IsShownOf (λ source done. ShowsRun W.sink out.old out.new done wanted.now source)) out.old
        out.new bytes.now result }
{
    let text = Text::read(alloc, bytes)?;
    let source = Source::of(alloc, &text)?;
    let status = show_source(alloc, &source, wanted, out)?;
    Ok(ShownFile {
        status,
        not_done: source.not_done(),
    })
}

/// Writes these races of a schedule, and refuses any other file.
fn show_luck<W: Out>(
    alloc: Global,
    bytes: &[u8],
    wanted: &Wanted<'_>,
    out: &mut W,
) -> Result<ShownFile, ColumnError>
    ensures { ShowsLuck W.sink out.old out.new wanted.now bytes.now result }
{
    if is_schedule(bytes) {
        show_text(alloc, bytes, wanted, out)
    } else {
        Err(ColumnError::Program(ProgramError::Usage))
    }
}

/// Writes the wanted races of a schedule by `any` to `out`, by the names of their messages. There is a line for each
/// range of earlier events, or a JSON object for each receive, each with the word `any`. The line of a refusal goes to
/// `err`, or the number of commands that did nothing. The exit status is 1 if a race is shown, 0 if none is, and 2
/// after a refusal. A file that is no schedule is refused first (G1), then the faults of the text, then F34. Nothing
/// is written to `out` before a refusal, unless writing to it failed (F24). A failed write to `err` changes nothing.
pub fn lucky_races<W: Out, V: Out>(
    alloc: Global,
    bytes: &[u8],
    wanted: &Wanted<'_>,
    out: &mut W,
    err: &mut V,
) -> u8
    ensures { Answers (ShowsLuck W.sink out.old out.new wanted.now bytes.now) shown_exit V.sink err.old err.new result }
{
    answered(&show_luck(alloc, bytes, wanted, out), err)
}
