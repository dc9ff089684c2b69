//! Reads whole texts of charts.
ghost use Rattle.std.specs.Prelude.{◌≡◌, ℕ, List, [], Ok, IfOk};
ghost use Rattle.chart.specs.Charts.{LineView, IsNumbered};
ghost use Rattle.msc_text.specs.ChartText.{chart_text};
ghost use Rattle.texts.specs.Faults.{Gives, in_line};
ghost use Rattle.texts.specs.Lines.{lines_of, end_of};
ghost use Rattle.msc_text.specs.Reader.HasText.{HasText};
ghost use Rattle.msc_text.specs.Reader.Ahead.{names_ahead};
ghost use Rattle.msc_text.specs.Reader.OneLook.{MayBeBuilt, line_read, Looks};
ghost use Rattle.msc_text.specs.Reader.Reading.{names_after, finished, names_in, are_read, chart_of};

use crate::reader::ahead::names_ahead;
use crate::reader::builder::Builder;
use crate::reader::event_line::event_in;
use crate::reader::state::{Saying, State};
use crate::reader::step::step_in;
use chart::{Chart, Line, Names};
use std::alloc::Global;
use texts::reading::{Guesses, next_line};
use texts::{Cause, Fault, TextError, add_name, at_line, fault_at};

/// Adds the name of the instance that a line begins. F22 and F8 refuse an instance, and F8 the end of a chart with too
/// few instances.
fn add_names(number: u64, names: &mut Names, saying: &Saying) -> Result<(), TextError>
    ensures { Gives (λ _. names.new) result (in_line number (names_after names.old saying.now)) }
{
    match saying {
        Saying::Head(own) => add_name(number, names, *own),
        Saying::End if names.len() < 2 => Err(fault_at(number, Cause::Instances)),
        _ => Ok(()),
    }
}

/// Checks that the chart ended before line `number` and that nothing follows: F21 if it didn't end, and F20 if
/// something follows.
fn finish(number: u64, names: Names, state: State, rest: &[u8]) -> Result<Names, TextError>
    ensures { Gives (λ n. n) result (finished names state number rest.now) }
{
    match state {
        State::Done if rest.is_empty() => Ok(names),
        State::Done => Err(fault_at(number, Cause::Syntax)),
        _ => Err(TextError::Fault(Fault::Unfinished)),
    }
}

/// The first look: the names of the instances, or the first fault that a line has by itself and those before it.
fn names_in(alloc: Global, bytes: &[u8]) -> Result<Names, TextError>
    ensures { Gives (λ n. n) result (names_in bytes.now) }
{
    let mut names = Names::new(alloc);
    let mut state = State::Start;
    let mut rest = bytes;
    let mut number = 1;
    'lines: loop {
        match next_line(rest) {
            None => return finish(number, names, state, rest),
            Some((line, after)) => {
                let (saying, next) = at_line(number, step_in(state, line))?;
                add_names(number, &mut names, &saying)?;
                state = next;
                rest = after;
                number += 1;
            }
        }
    }
}

/// Reads one more line: the names and the builder after it, and the next state. `known` has all names of the text.
fn with_line(
    alloc: Global,
    known: &Names,
    names: &mut Names,
    builder: Builder,
    state: State,
    number: u64,
    line: &[u8],
) -> Result<(Builder, State), TextError>
    requires { MayBeBuilt known.now names.old builder state line.now }
    ensures { Gives (λ r. (names.new, r.0, r.1)) result (line_read known.now names.old builder state number line.now) }
{
    let (saying, next) = at_line(number, step_in(state, line))?;
    add_names(number, names, &saying)?;
    let builder = builder.with(alloc, known, number, saying)?;
    Ok((builder, next))
}

/// One look: the names and the lines of the instances, if the text has these names. A fault that it returns is one that
/// one of the two looks finds.
fn one_look(alloc: Global, known: &Names, bytes: &[u8]) -> Result<(Names, Vec<Line>), TextError>
    requires { known.now ≡ names_ahead bytes.now }
    ensures looks { Looks known.now bytes.now (λ parts. (parts.0, parts.1.items)) result }
    ensures numbered { IfOk result (λ parts. IsNumbered parts.1.items) }
{
    let mut guesses = Guesses::new();
    let mut names = Names::new(alloc);
    let mut builder = Builder::new(alloc);
    let mut state = State::Start;
    let mut rest = bytes;
    let mut number = 1;
    'lines: loop {
        let Some((line, after)) = next_line(rest) else {
            let names = finish(number, names, state, rest)?;
            return Ok((names, builder.into_lines()));
        };
        let region = builder.open_region();
        if let Some((event, next)) = event_in(known, &mut guesses, &state, region, line) {
            builder.add_event(event)?;
            state = next;
        } else {
            let (more, next) = with_line(alloc, known, &mut names, builder, state, number, line)?;
            builder = more;
            state = next;
        }
        rest = after;
        number += 1;
    }
}

/// The result of both looks. The text is looked at again only if a line has a fault. An unknown partner is the text's
/// fault only if no line has a fault by itself.
fn parts_in(alloc: Global, bytes: &[u8]) -> Result<(Names, Vec<Line>), TextError>
    ensures parts { Gives (λ parts. (parts.0, parts.1.items)) result (chart_of bytes.now) }
    ensures numbered { IfOk result (λ parts. IsNumbered parts.1.items) }
{
    let known = names_ahead(alloc, bytes)?;
    match one_look(alloc, &known, bytes) {
        Ok(parts) => Ok(parts),
        Err(TextError::Memory) => Err(TextError::Memory),
        Err(TextError::Fault(fault)) => {
            names_in(alloc, bytes)?;
            Err(TextError::Fault(fault))
        }
    }
}

/// Reads the names and the chart of a text, or returns its first fault. It takes time in proportion to the text.
///
/// The lines are checked from the top. F20 refuses a line whose form its state doesn't allow. Then the first of F1 to
/// F4 that applies refuses a word that is no name. F22 refuses an instance's name that was given before, F8 the 33rd
/// instance, and F13 an event whose partner is its own instance. F7 refuses the 4,097th event of an instance, F8 the
/// end of a chart with fewer than two instances, and F20 anything that follows the end.
///
/// If no line has a fault and the chart didn't end, the answer is F21. Last, as at a second look from the top, F23
/// refuses the first event whose partner is no instance. F6 may be the answer at any point.
pub fn read(alloc: Global, bytes: &[u8]) -> Result<(Names, Chart), TextError>
    ensures found { IfOk result (λ read. HasText read.0 read.1 × (bytes.now ≡ chart_text read.0 read.1)) }
    ensures only { (names : List (List ℕ)) (lines : List LineView) → HasText names lines
        → bytes.now ≡ chart_text names lines
        → Gives (λ read. (read.0, read.1)) result (are_read names lines) }
    ensures exact { Gives (λ read. (read.0, read.1)) result (chart_of bytes.now) }
{
    let (names, lines) = parts_in(alloc, bytes)?;
    match Chart::new(lines) {
        Ok(chart) => Ok((names, chart)),
        Err(_) => unreachable!(),
    }
}
