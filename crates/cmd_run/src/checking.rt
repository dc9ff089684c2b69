//! Checks of charts: whether they are possible, and their races.
ghost use Rattle.std.specs.Prelude.{◌≡◌, ◌||◌, [], length, nat_lt, All};
ghost use Rattle.chart.specs.Ranges.{IsRange, events_in};
ghost use Rattle.closure.specs.Reported.{HaveReported};
ghost use Rattle.msc_text.specs.Reader.Reading.{chart_of};
ghost use Rattle.cmd_run.specs.Checking.{HasAdded, HasWritten};
ghost use Rattle.cmd_run.specs.Tasks.{Checks};

use chart::{EventRange, Names};
use closure::Reporter;
use cmd_base::{ProgramError, Status, chart_in, closure_of};
use msc_text::RaceLines;
use std::alloc::{AllocError, Global};
use texts::{Out, TextBuffer, WriteError};

/// Whether there is an event in these ranges.
fn has_events(ranges: &[EventRange]) -> bool
    requires { All IsRange ranges.now }
    ensures { result ≡ nat_lt 0 (length (events_in ranges.now)) }
{
    !ranges.is_empty()
}

fn either(first: bool, second: bool) -> bool
    ensures { result ≡ (first || second) }
{
    first || second
}

/// Adds the line of each race as it is found, and returns whether there is one. It takes no memory.
fn add_found<W: Out>(
    text: &mut TextBuffer<'_, W>,
    names: &Names,
    reporter: Reporter<'_>,
) -> Result<bool, WriteError>
    requires reporter { HaveReported reporter.lines reporter.line reporter.place [] }
    requires named { length names.now ≡ length reporter.lines }
    ensures { HasAdded W.sink text.old text.new names.now reporter.entry.lines result }
{
    let mut reporter = reporter;
    let mut lines = RaceLines::new();
    let mut has_races = false;
    while let Some(receive) = reporter.next() {
        let earlier = reporter.earlier();
        lines.add_report(text, names, receive, earlier)?;
        has_races = either(has_races, has_events(earlier));
    }
    Ok(has_races)
}

/// Writes the line of each race as it is found, and returns whether there is one.
#[tactic(auto, using(texts::proofs::Writes::joining, crate::proofs::FoundRaces::wrote_failed, crate::proofs::FoundRaces::vacuous))]
fn write<W: Out>(names: &Names, reporter: Reporter<'_>, out: &mut W) -> Result<bool, WriteError>
    requires reporter { HaveReported reporter.lines reporter.line reporter.place [] }
    requires named { length names.now ≡ length reporter.lines }
    ensures { HasWritten W.sink out.old out.new names.now reporter.entry.lines result }
{
    let mut text = TextBuffer::new(out);
    let has_races = add_found(&mut text, names, reporter)?;
    text.finish()?;
    Ok(has_races)
}

/// Checks the chart of the text: writes its races, and returns whether there are any.
///
/// All memory is taken before the first race is written.
pub fn check<W: Out>(alloc: Global, text: &[u8], out: &mut W) -> Result<Status, ProgramError>
    ensures { Checks W.sink out.old out.new result (chart_of text.now) }
{
    let (names, chart) = chart_in(alloc, text)?;
    let closure = closure_of(alloc, &names, &chart)?;
    let reporter = match closure.reporter() {
        Ok(reporter) => reporter,
        Err(AllocError) => return Err(ProgramError::Memory),
    };
    match write(&names, reporter, out) {
        Ok(has_races) => Ok(Status::of(has_races)),
        Err(_) => Err(ProgramError::Write),
    }
}
