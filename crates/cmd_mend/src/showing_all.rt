//! The chart in which as many races of a file are gone as can be, by one message after another.
ghost use Rattle.std.specs.Prelude.{◌≡◌, ◌*◌, ◌≤◌, length, None, IfOk};
ghost use Rattle.chart.specs.declared.instance.TheConstants.{MAX_INSTANCES};
ghost use Rattle.chart.specs.declared.line.TheConstants.{MAX_EVENTS};
ghost use Rattle.cmd_base.specs.Answers.{Answers};
ghost use Rattle.cmd_base.specs.Texts.{named_of};
ghost use Rattle.cmd_mend.specs.Answers.{mend_all_exit};
ghost use Rattle.cmd_mend.specs.Limits.{all_events, IsLimit, AreShort};
ghost use Rattle.cmd_mend.specs.Showing.{lucky_of, ShowsAll, ShowsAllText};
ghost use Rattle.repair.specs.Counted.{ArePlaced};

use crate::answering::Outcome;
use crate::outcomes::additions_outcome;
use chart::{Chart, Line, Names, Report};
use closure::Closure;
use cmd_base::{ProgramError, Source, Text, answered, closure_of};
use msc_text::write;
use repair::{Counted, count_pairs};
use shown_races::Showing;
use std::alloc::{AllocError, Global};
use texts::Out;

/// Which races are to go, and how many race pairs may be tried.
#[derive(Clone, Copy, Debug, PartialEq, Eq)]
pub struct WantedAll {
    /// The races that are mended and counted.
    pub showing: Showing,
    /// How many race pairs may be tried. Without it, as many as the chart's events and race pairs allow.
    pub limit: Option<u64>,
}

/// Without a number of race pairs that is asked for, the tried charts have so many events and race pairs in all.
pub const TRIED_IN_ALL: usize = 20_000_000;

/// How many events the lines of a chart have.
fn count_events(lines: &[Line]) -> usize
    requires { AreShort lines.now }
    ensures count { result ≡ length (all_events lines.now) }
    ensures few { result ≤ MAX_INSTANCES * MAX_EVENTS }
{
    let mut count = 0;
    for line in lines {
        count += line.events().len();
    }
    count
}

/// How many race pairs of a chart may be tried where no number is asked for.
fn allowed(closure: &Closure<'_>) -> Result<usize, AllocError>
    ensures { IfOk result (IsLimit closure.now None) }
{
    // (a call states what each chart keeps)
    let _ = closure.len();
    let reports = closure.races()?;
    let events = count_events(closure.lines());
    let pairs = count_pairs(reports.as_slice());
    Ok(TRIED_IN_ALL / (events + pairs + 1))
}

/// How many race pairs of a chart may be tried: so many as are asked for, or as its events and race pairs allow.
fn limit_of(closure: &Closure<'_>, asked: Option<u64>) -> Result<usize, AllocError>
    ensures { IfOk result (IsLimit closure.now asked) }
{
    match asked {
        Some(limit) => Ok(limit as usize),
        None => allowed(closure),
    }
}

/// Mends the races of the chart that count. All memory is taken before the first byte is written.
fn mend_all_in<W: Out>(
    alloc: Global,
    names: &Names,
    chart: &Chart,
    counted: Counted,
    asked: Option<u64>,
    out: &mut W,
) -> Result<Outcome, ProgramError>
    requires named { length names.now ≡ length chart.now }
    requires placed { ArePlaced counted chart.now }
    ensures { ShowsAll W.sink counted asked out.old out.new result (names.now, chart.now) }
{
    let closure = closure_of(alloc, names, chart)?;
    let limit = match limit_of(&closure, asked) {
        Ok(limit) => limit,
        Err(AllocError) => return Err(ProgramError::Memory),
    };
    let mended = match repair::mend_all(alloc, chart, counted, limit) {
        Ok(mended) => mended,
        Err(AllocError) => return Err(ProgramError::Memory),
    };
    let outcome = match additions_outcome(alloc, names, &mended) {
        Ok(outcome) => outcome,
        Err(AllocError) => return Err(ProgramError::Memory),
    };
    match write(names, &mended.chart, out) {
        Ok(()) => Ok(outcome),
        Err(_) => Err(ProgramError::Write),
    }
}

/// Mends the races of what the file says.
fn mend_all_text<W: Out>(
    alloc: Global,
    bytes: &[u8],
    wanted: &WantedAll,
    out: &mut W,
) -> Result<Outcome, ProgramError>
    ensures { ShowsAllText W.sink wanted.now out.old out.new bytes.now result }
{
    let text = Text::read(alloc, bytes)?;
    let source = Source::of(alloc, &text)?;
    let counted = Counted::shown(alloc, wanted.showing);
    mend_all_in(
        alloc,
        source.names(),
        source.chart(),
        counted,
        wanted.limit,
        out,
    )
}

/// Adds messages to the chart that the bytes of a file say, or that their schedule comes to, one after another, as long
/// as one leaves fewer race pairs: each time the one that leaves the fewest. Writes the chart to `out`, and to `err` a
/// line for each message, with the race pair that it mends; or the line of a refusal. For each message all race pairs
/// of the chart are tried, and so many may be in all as are asked for, or as its events and race pairs allow: where
/// they are more than are left of these, it stops, and a line on `err` says that. Only the races that are shown are
/// mended and counted. Answers the exit status: 0 where none of these is left, 1 where one is, 2 after a refusal.
/// Nothing is written to `out` before a refusal, but where writing to it failed (F24). A failed write to `err` changes
/// nothing.
pub fn mend_all<W: Out, V: Out>(
    alloc: Global,
    bytes: &[u8],
    wanted: &WantedAll,
    out: &mut W,
    err: &mut V,
) -> u8
    ensures { Answers (ShowsAllText W.sink wanted.now out.old out.new bytes.now) mend_all_exit V.sink err.old err.new result }
{
    answered(&mend_all_text(alloc, bytes, wanted, out), err)
}

/// The same for a chart with these names. Of its races only those are mended and counted that are shown and were luck.
/// `luck` has these, whether or not they are shown. Its events are within their lines.
pub fn mend_all_luck<W: Out, V: Out>(
    alloc: Global,
    names: &Names,
    chart: &Chart,
    luck: Vec<Report>,
    wanted: &WantedAll,
    out: &mut W,
    err: &mut V,
) -> u8
    requires named { length names.now ≡ length chart.now }
    requires placed { ArePlaced (lucky_of wanted.now.showing luck.items) chart.now }
    ensures { Answers (λ done. ShowsAll W.sink (lucky_of wanted.now.showing luck.items) wanted.now.limit out.old out.new done
        (names.now, chart.now))
        mend_all_exit V.sink err.old err.new result }
{
    let counted = Counted {
        showing: wanted.showing,
        only_luck: true,
        luck,
    };
    answered(
        &mend_all_in(alloc, names, chart, counted, wanted.limit, out),
        err,
    )
}
