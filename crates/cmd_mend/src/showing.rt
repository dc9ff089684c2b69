//! The chart in which a race of a file is gone.
ghost use Rattle.std.specs.Prelude.{◌≡◌, length};
ghost use Rattle.chart.specs.Charts.{chart_lines};
ghost use Rattle.cmd_base.specs.Answers.{Answers};
ghost use Rattle.cmd_base.specs.Texts.{named_of};
ghost use Rattle.repair.specs.Mends.{IsMadeOf};
ghost use Rattle.cmd_mend.specs.Answers.{by_program, mend_exit};
ghost use Rattle.cmd_mend.specs.Showing.{IsNamedFor, refused_so, Writes, Shows, ShowsText};
ghost use Rattle.cmd_base.specs.Pairs.Pairs.{IsPair};

use crate::answering::Outcome;
use crate::error::MendRefusal;
use crate::naming::message_name;
use crate::outcomes::outcome_of;
use chart::{Chart, Names};
use closure::Closure;
use cmd_base::pairs::{Asked, Pair, PairError, pair_in};
use cmd_base::{ProgramError, Source, Text, answered, closure_of};
use msc_text::write;
use repair::{MendError, Mending};
use std::alloc::{AllocError, Global};
use texts::{Out, named};

/// How much is reported of the races that go, stay and come.
#[derive(Clone, Copy, Debug, PartialEq, Eq)]
pub enum Detail {
    /// The first ranges that go or come, and how many race pairs go, stay and come.
    Brief,
    /// Each range.
    Full,
}

/// Which race is to go, what the new message is called, and how much is listed; without a name it has one of its own.
#[derive(Clone, Copy, Debug)]
pub struct Wanted<'a> {
    pub asked: Asked<'a>,
    pub name: Option<&'a [u8]>,
    pub detail: Detail,
}

/// What is refused for want of memory, or where a write failed.
fn refusal(cause: ProgramError) -> MendRefusal
    ensures { result ≡ by_program cause }
{
    MendRefusal::View(PairError::Program(cause))
}

/// The refusal of a message, by the name of the instance whose line is full.
fn refused(names: &Names, error: &MendError) -> MendRefusal
    requires { IsNamedFor (length names.now) error.now }
    ensures { result ≡ refused_so names.now error.now }
{
    match error {
        MendError::LineFull(instance) => MendRefusal::LineFull(named(names, *instance)),
        MendError::Memory => refusal(ProgramError::Memory),
    }
}

/// Writes the chart, if there is one, and answers the report. All memory is taken before the first byte is written.
fn write_mending<W: Out>(
    alloc: Global,
    names: &Names,
    closure: &Closure<'_>,
    pair: &Pair,
    detail: Detail,
    mending: &Mending,
    out: &mut W,
) -> Result<Outcome, MendRefusal>
    requires named { length names.now ≡ length closure.now }
    requires pair { IsPair (chart_lines closure.now) pair.now }
    requires made { IsMadeOf closure.now mending.now }
    ensures { Writes W.sink out.old out.new (names.now, closure.now) detail pair.now mending.now result }
{
    let outcome = match outcome_of(alloc, names, closure, pair, detail, mending) {
        Ok(outcome) => outcome,
        Err(AllocError) => return Err(refusal(ProgramError::Memory)),
    };
    match mending {
        Mending::Mended(_, chart, _) => match write(names, chart, out) {
            Ok(()) => Ok(outcome),
            Err(_) => Err(refusal(ProgramError::Write)),
        },
        _ => Ok(outcome),
    }
}

/// Mends the race of the chart that is asked about.
fn mend_in<W: Out>(
    alloc: Global,
    names: &Names,
    chart: &Chart,
    wanted: &Wanted<'_>,
    out: &mut W,
) -> Result<Outcome, MendRefusal>
    requires { length names.now ≡ length chart.now }
    ensures { Shows W.sink out.old out.new result wanted.now (names.now, chart.now) }
{
    let closure = closure_of(alloc, names, chart)?;
    let pair = pair_in(names, chart.lines(), &wanted.asked)?;
    let name = message_name(alloc, chart.lines(), wanted.name)?;
    match repair::mend(alloc, &closure, &pair.earlier, &pair.receive, &name) {
        Ok(mending) => write_mending(alloc, names, &closure, &pair, wanted.detail, &mending, out),
        Err(error) => Err(refused(names, &error)),
    }
}

/// Mends the race of what the file says.
fn mend_text<W: Out>(
    alloc: Global,
    bytes: &[u8],
    wanted: &Wanted<'_>,
    out: &mut W,
) -> Result<Outcome, MendRefusal>
    ensures { ShowsText W.sink out.old out.new wanted.now bytes.now result }
{
    let text = Text::read(alloc, bytes)?;
    let source = Source::of(alloc, &text)?;
    mend_in(alloc, source.names(), source.chart(), wanted, out)
}

/// Mends a race of a chart that was read: the same as [`mend`] does with the bytes of the file that it comes from.
pub fn mend_of_source<W: Out, V: Out>(
    alloc: Global,
    source: &Source<'_>,
    wanted: &Wanted<'_>,
    out: &mut W,
    err: &mut V,
) -> u8
    ensures { Answers (λ done. Shows W.sink out.old out.new done wanted.now (named_of source.now)) mend_exit
        V.sink err.old err.new result }
{
    answered(
        &mend_in(alloc, source.names(), source.chart(), wanted, out),
        err,
    )
}

/// Writes to `out` the chart that the bytes of a file say, or that their schedule comes to, with one message more by
/// which the race that is asked about is gone. Reports on `err` where the message is, and which races go, in the old
/// chart's numbers, and stay and come, in the new one's: in brief the first ranges that go or come, and counts. Where
/// no message from the race's instance to its receive's sender does, none is needed, or a coregion hides the pair, it
/// writes nothing, and says that on `err`, as it does the line of a refusal. Answers the exit status: 1 where there is
/// no such message, 2 after a refusal, and else 0.
/// Nothing is written to `out` before a refusal, but where writing to it failed (F24). A failed write to `err` changes
/// nothing.
pub fn mend<W: Out, V: Out>(
    alloc: Global,
    bytes: &[u8],
    wanted: &Wanted<'_>,
    out: &mut W,
    err: &mut V,
) -> u8
    ensures { Answers (ShowsText W.sink out.old out.new wanted.now bytes.now) mend_exit V.sink err.old err.new result }
{
    answered(&mend_text(alloc, bytes, wanted, out), err)
}
