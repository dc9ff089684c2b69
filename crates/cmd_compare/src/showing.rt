//! Compares the recordings of two files, and writes their differences.
ghost use Rattle.std.specs.Prelude.{◌≡◌, length, IfOk, IfErr};
ghost use Rattle.std.specs.List.{flat_map, list_any};
ghost use Rattle.texts.specs.Writing.{Wrote};
ghost use Rattle.cmd_base.specs.declared.error.ProgramError.TheVariants.{Memory};
ghost use Rattle.cmd_base.specs.Answers.{Answers};
ghost use Rattle.cmd_base.specs.Texts.{OfFile, named_of};
ghost use Rattle.cmd_compare.specs.declared.error.CompareError.TheVariants.{Program};
ghost use Rattle.cmd_compare.specs.Answers.{compare_exit};
ghost use Rattle.cmd_compare.specs.Comparisons.{has_difference, some_difference, found_in, line_text};
ghost use Rattle.cmd_compare.specs.Comparisons.{Compares, ComparesFiles};

use crate::comparison::{LineComparison, Recordings, compared};
pub use crate::comparison_text::Form;
use crate::comparison_text::{Recording, write_lines};
use crate::error::CompareError;
use crate::fronts::Ordered;
use crate::naming::counterparts;
use crate::pairs::Difference;
use chart::{Chart, Names};
use closure::Closure;
use cmd_base::{ProgramError, Source, Text, answered, closure_of};
use std::alloc::{AllocError, Global};
use texts::{Out, WriteError};

/// The result of a comparison.
#[derive(Clone, Copy)]
pub(crate) enum Found {
    /// No two events are in opposite orders.
    Same,
    /// Some two events are in opposite orders.
    Reordered,
}

fn some_difference(differences: &[Difference]) -> bool
    ensures { result ≡ some_difference differences.now }
{
    match differences {
        [] => false,
        [_, ..] => true,
    }
}

/// Whether there is a pair on some line.
fn found_on(lines: &[LineComparison]) -> Found
    ensures { result ≡ found_in (list_any has_difference lines.now) }
{
    for line in lines {
        if some_difference(line.differences.as_slice()) {
            return Found::Reordered;
        }
    }
    Found::Same
}

/// The charts to compare, and the form of the text.
#[derive(Clone, Copy)]
struct Both<'a> {
    names: &'a Names,
    chart: &'a Chart,
    other_names: &'a Names,
    other_chart: &'a Chart,
    form: Form,
}

/// Writes the differences of two charts.
fn write_both<W: Out>(
    both: &Both<'_>,
    lines: &[LineComparison],
    out: &mut W,
) -> Result<(), WriteError>
    ensures { Wrote W.sink out.old out.new result (flat_map (line_text both.now.form
        (both.now.names.now, both.now.chart.now) (both.now.other_names.now, both.now.other_chart.now)) lines.now) }
{
    let first = Recording {
        names: both.names,
        lines: both.chart.lines(),
    };
    let second = Recording {
        names: both.other_names,
        lines: both.other_chart.lines(),
    };
    write_lines(both.form, &first, &second, lines, out)
}

/// A possible chart with the fronts of its receives. F6: it fails only if there is no memory.
fn ordered<'a>(alloc: Global, closure: &'a Closure<'a>) -> Result<Ordered<'a>, CompareError>
    ensures lines { IfOk result (λ ordered. ordered ≡ closure.now) }
    ensures memory { IfErr result (λ e. e ≡ Program Memory) }
{
    match Ordered::of(alloc, closure) {
        Ok(ordered) => Ok(ordered),
        Err(AllocError) => Err(CompareError::Program(ProgramError::Memory)),
    }
}

/// Compares the two charts, and writes their differences. All memory is taken before the first line is written.
fn compare_charts<W: Out>(
    alloc: Global,
    both: &Both<'_>,
    out: &mut W,
) -> Result<Found, CompareError>
    requires first { length both.now.names.now ≡ length both.now.chart.now }
    requires second { length both.now.other_names.now ≡ length both.now.other_chart.now }
    ensures { Compares W.sink out.old out.new both.now.form (both.now.names.now, both.now.chart.now)
        (both.now.other_names.now, both.now.other_chart.now) result }
{
    let others = counterparts(alloc, both.names, both.other_names)?;
    let back = counterparts(alloc, both.other_names, both.names)?;
    let here = closure_of(alloc, both.names, both.chart)?;
    let there = closure_of(alloc, both.other_names, both.other_chart)?;
    let first = ordered(alloc, &here)?;
    let second = ordered(alloc, &there)?;
    let recordings = Recordings {
        here: &first,
        there: &second,
        others: others.as_slice(),
        back: back.as_slice(),
    };
    let lines = match compared(alloc, &recordings) {
        Ok(lines) => lines,
        Err(AllocError) => return Err(CompareError::Program(ProgramError::Memory)),
    };
    match write_both(both, lines.as_slice(), out) {
        Ok(()) => Ok(found_on(lines.as_slice())),
        Err(_) => Err(CompareError::Program(ProgramError::Write)),
    }
}

/// The same for a recording and the bytes of a second file.
fn compare_second<W: Out>(
    alloc: Global,
    source: &Source<'_>,
    second: &[u8],
    form: Form,
    out: &mut W,
) -> Result<Found, CompareError>
    ensures { OfFile Program (λ b found. Compares W.sink out.old out.new form (named_of source.now) (named_of b) found)
        out.old out.new second.now result }
{
    let text = Text::read(alloc, second)?;
    let other = Source::of(alloc, &text)?;
    let both = Both {
        names: source.names(),
        chart: source.chart(),
        other_names: other.names(),
        other_chart: other.chart(),
        form,
    };
    compare_charts(alloc, &both, out)
}

/// The same for the bytes of two files.
fn compare_texts<W: Out>(
    alloc: Global,
    first: &[u8],
    second: &[u8],
    form: Form,
    out: &mut W,
) -> Result<Found, CompareError>
    ensures { ComparesFiles W.sink out.old out.new form first.now second.now result }
{
    let text = Text::read(alloc, first)?;
    let source = Source::of(alloc, &text)?;
    compare_second(alloc, &source, second, form, out)
}

/// Compares the charts in the bytes of two files, or the charts of the schedules in them. Writes to `out` the pairs of
/// events that both have in opposite orders, and the events that only one of them has. Each pair has its verdict in
/// both recordings. Writes the line of a refusal to `err`. Returns the exit status: 0 if there is no such pair, 1 if
/// there is one, and 2 after a refusal. Nothing is written to `out` before a refusal, unless a write to it fails (F24).
/// A failed write to `err` changes nothing.
pub fn compare<W: Out, V: Out>(
    alloc: Global,
    first: &[u8],
    second: &[u8],
    form: Form,
    out: &mut W,
    err: &mut V,
) -> u8
    ensures { Answers (ComparesFiles W.sink out.old out.new form first.now second.now) compare_exit V.sink err.old
        err.new result }
{
    answered(&compare_texts(alloc, first, second, form, out), err)
}
