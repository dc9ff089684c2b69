//! What `mscview witness` does with the bytes of a file.
ghost use Rattle.cmd_base.specs.Answers.{Answers};
ghost use Rattle.cmd_base.specs.Texts.{ComesFrom};
ghost use Rattle.cmd_explain_race.specs.Answers.{witness_exit};
ghost use Rattle.cmd_explain_race.specs.Witnessing.{WritesShown, FindsIn, Witnesses};

use crate::finding::{found_in, judged};
use crate::verdict::Witnessed;
use cmd_base::pairs::{Asked, PairError};
use cmd_base::{ProgramError, Source, Text, answered};
use schedule_replay::reordered_runs::Shown;
use std::alloc::Global;
use texts::Out;

/// Writes the schedule that was found, if there is one.
fn write_shown<W: Out>(shown: &Shown, out: &mut W) -> Result<(), PairError>
    ensures { WritesShown W.sink out.old out.new shown.now result }
{
    match shown {
        Shown::Replay(schedule) => match schedule.write(out) {
            Ok(()) => Ok(()),
            Err(_) => Err(PairError::Program(ProgramError::Write)),
        },
        Shown::Enforced | Shown::TooManySlots(_) => Ok(()),
    }
}

/// Writes a witness for two events of a file's chart. Returns the verdict, and whether closes were left out.
fn witness_of<W: Out>(
    alloc: Global,
    source: &Source<'_>,
    asked: &Asked<'_>,
    out: &mut W,
) -> Result<Witnessed, PairError>
    requires { ComesFrom source.now }
    ensures { FindsIn W.sink out.old out.new asked.now source.now result }
{
    let found = found_in(alloc, source, asked)?;
    let witnessed = judged(source, &found)?;
    write_shown(&found.shown, out)?;
    Ok(witnessed)
}

/// Writes a witness for two events of a chart that was read, as [`witness`] does for the bytes of the chart's file.
pub fn witness_of_source<W: Out, V: Out>(
    alloc: Global,
    source: &Source<'_>,
    asked: &Asked<'_>,
    out: &mut W,
    err: &mut V,
) -> u8
    requires { ComesFrom source.now }
    ensures { Answers (FindsIn W.sink out.old out.new asked.now source.now) witness_exit V.sink err.old err.new result }
{
    answered(&witness_of(alloc, source, asked, out), err)
}

/// Writes a witness for two events of a file's chart.
fn witness_text<W: Out>(
    alloc: Global,
    bytes: &[u8],
    asked: &Asked<'_>,
    out: &mut W,
) -> Result<Witnessed, PairError>
    ensures { Witnesses W.sink out.old out.new bytes.now asked.now result }
{
    let text = Text::read(alloc, bytes)?;
    let source = Source::of(alloc, &text)?;
    witness_of(alloc, &source, asked, out)
}

/// Writes the schedule of a run that reverses two events of the chart in the bytes of a file. If the bytes have a
/// schedule, the chart is the schedule's. Writes to `err` the line of a refusal, or that the pair is enforced, that
/// closes were left out, or that a coregion hides the pair. Returns the exit status: 0 if the pair is enforced, 1 if a
/// schedule was written, and 2 after a refusal. Nothing is written to `out` before a refusal, unless a write to it
/// fails (F24). A failed write to `err` changes nothing.
pub fn witness<W: Out, V: Out>(
    alloc: Global,
    bytes: &[u8],
    asked: &Asked<'_>,
    out: &mut W,
    err: &mut V,
) -> u8
    ensures { Answers (Witnesses W.sink out.old out.new bytes.now asked.now) witness_exit V.sink err.old err.new result }
{
    answered(&witness_text(alloc, bytes, asked, out), err)
}
