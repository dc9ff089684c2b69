//! Explanations of pairs in the bytes of a file.
ghost use Rattle.cmd_base.specs.Answers.{Answers};
ghost use Rattle.cmd_base.specs.Texts.{named_of};
ghost use Rattle.cmd_explain_race.specs.Answers.{why_exit, why_file_exit};
ghost use Rattle.cmd_explain_race.specs.Explaining.{Explains};
ghost use Rattle.cmd_explain_race.specs.FilePairs.{WhysFile};

use crate::explained::why_in;
use crate::verdict::Explained;
use cmd_base::pairs::{Asked, PairError};
use cmd_base::{Source, Text, answered};
use std::alloc::Global;
use texts::Out;

/// Explains two events of a file's chart, and returns the verdict with the commands of the schedule that did nothing.
fn why_text<W: Out>(
    alloc: Global,
    bytes: &[u8],
    asked: &Asked<'_>,
    out: &mut W,
) -> Result<Explained, PairError>
    ensures { WhysFile W.sink out.old out.new bytes.now asked.now result }
{
    let text = Text::read(alloc, bytes)?;
    let source = Source::of(alloc, &text)?;
    let verdict = why_in(alloc, source.names(), source.chart(), asked, out)?;
    Ok(Explained {
        verdict,
        not_done: source.not_done(),
    })
}

/// Explains two events of a chart that was read, as [`why`] does for the bytes of the chart's file.
pub fn why_of_source<W: Out, V: Out>(
    alloc: Global,
    source: &Source<'_>,
    asked: &Asked<'_>,
    out: &mut W,
    err: &mut V,
) -> u8
    ensures { Answers (λ done. Explains W.sink out.old out.new done (named_of source.now) asked.now) why_exit
        V.sink err.old err.new result }
{
    answered(
        &why_in(alloc, source.names(), source.chart(), asked, out),
        err,
    )
}

/// Explains two events of the chart in the bytes of a file, or of the chart of the schedule in them. Writes to `out`
/// the chain that enforces the pair. If the pair isn't enforced, writes the events that have to come before the
/// receive, and how its line may be. Writes to `err` the line of a refusal, or that a coregion hides the pair, and how
/// many commands of a schedule did nothing. Returns the exit status: 0 if the pair is enforced, 1 if it isn't, and 2
/// after a refusal. Nothing is written to `out` before a refusal, unless a write to it fails (F24). A failed write to
/// `err` changes nothing.
pub fn why<W: Out, V: Out>(
    alloc: Global,
    bytes: &[u8],
    asked: &Asked<'_>,
    out: &mut W,
    err: &mut V,
) -> u8
    ensures { Answers (WhysFile W.sink out.old out.new bytes.now asked.now) why_file_exit V.sink err.old err.new
        result }
{
    answered(&why_text(alloc, bytes, asked, out), err)
}
