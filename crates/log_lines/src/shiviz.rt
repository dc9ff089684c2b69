//! Reads logs for ShiViz.
ghost use Rattle.std.specs.Prelude.{◌≡◌, map, IfOk, OnOk};
ghost use Rattle.log_lines.specs.Events.{clocked_view};
ghost use Rattle.log_lines.specs.Reading.{read_view, all_lines};
ghost use Rattle.log_lines.specs.ShiViz.{by_line, by_next, with_next, first_line, shiviz_step, shiviz_read};
ghost use Rattle.log_lines.specs.Windows.{step_view, step_at, with_windows};

use crate::clock_line::{clock_line, is_parser};
use crate::event::{Clocked, LineSays, Place};
use crate::range::{LineRange, is_within};
use crate::read::Read;
use crate::step::Step;
use std::alloc::{AllocError, Global};
use texts::{next_line, stripped};

/// The meaning of a line with a clock, by the line after it.
fn by_line<'a>(clocked: Clocked<'a>, next: &'a [u8]) -> Step<'a>
    ensures { step_view result ≡ by_line (clocked_view clocked.entry) next.now }
{
    if !clocked.event.is_empty() {
        return Step {
            says: LineSays::Clocked(clocked),
            takes: 0,
        };
    }
    Step {
        says: LineSays::Clocked(Clocked {
            host: clocked.host,
            clock: clocked.clock,
            event: next,
        }),
        takes: 1,
    }
}

/// The meaning of a line without a clock, by the line after it.
fn by_next<'a>(line: &'a [u8], next: &'a [u8]) -> Step<'a>
    ensures { step_view result ≡ by_next line.now next.now }
{
    match clock_line(next) {
        Some(clocked) if clocked.event.is_empty() => Step {
            says: LineSays::Clocked(Clocked {
                host: clocked.host,
                clock: clocked.clock,
                event: line,
            }),
            takes: 1,
        },
        _ => Step {
            says: LineSays::Other,
            takes: 0,
        },
    }
}

/// The meaning of a line, by the line after it.
fn with_next<'a>(line: &'a [u8], next: &'a [u8]) -> Step<'a>
    ensures { step_view result ≡ with_next line.now next.now }
{
    if line.is_empty() || is_parser(line) {
        return Step {
            says: LineSays::Nothing,
            takes: 0,
        };
    }
    match clock_line(line) {
        Some(clocked) => by_line(clocked, next),
        None => by_next(line, next),
    }
}

/// The first line of the text after a line. It is empty if there is none.
fn first_line(after: &[u8]) -> &[u8]
    ensures { result.now ≡ first_line (all_lines after.now) }
{
    match next_line(after) {
        Some((line, _)) => stripped(line),
        None => stripped(after),
    }
}

/// The meaning of the first line of a text.
#[tactic(auto, unfolding(crate::specs::ShiViz::shiviz_step))]
fn shiviz_step(text: &[u8]) -> Step<'_>
    ensures { step_view result ≡ shiviz_step (all_lines text.now) }
{
    match next_line(text) {
        Some((line, after)) => with_next(stripped(line), first_line(after)),
        None => with_next(stripped(text), &[]),
    }
}

/// The meaning of the text's first line, which has this number. `taken` is how many of the text's lines belong to an
/// earlier event.
fn step_at(range: LineRange, number: u64, taken: usize, text: &[u8]) -> Step<'_>
    ensures { step_view result ≡ step_at shiviz_step range number taken (all_lines text.now) }
{
    if taken > 0 {
        return Step {
            says: LineSays::Nothing,
            takes: taken - 1,
        };
    }
    if !is_within(range, number) {
        return Step {
            says: LineSays::Nothing,
            takes: 0,
        };
    }
    shiviz_step(text)
}

/// Adds the lines of a text.
fn add_text<'a>(
    range: LineRange,
    text: usize,
    bytes: &'a [u8],
    read: &mut Read<'a>,
) -> Result<(), AllocError>
    ensures { OnOk result (read_view read.new ≡ with_windows shiviz_step range text 1 0 (all_lines bytes.now) (read_view read.old)) }
{
    let mut rest = bytes;
    let mut number = 1;
    let mut taken = 0;
    'lines: loop {
        let step = step_at(range, number, taken, rest);
        read.add(Place { text, line: number }, step.says)?;
        taken = step.takes;
        match next_line(rest) {
            None => break,
            Some((_, after)) => {
                rest = after;
                number += 1;
            }
        }
    }
    Ok(())
}

/// The meaning of the texts of a log for ShiViz: each event with its vector time. Blank lines and the expression of a
/// parser are ignored. Any other line isn't read, and is counted.
#[tactic(auto, unfolding(crate::specs::ShiViz::shiviz_read))]
pub fn read_shiviz<'a>(
    alloc: Global,
    range: LineRange,
    texts: &[&'a [u8]],
) -> Result<Read<'a>, AllocError>
    ensures { IfOk result (λ read. read_view read ≡ shiviz_read range (map (λ text. text.now) texts.now)) }
{
    let mut read = Read::new(alloc);
    for (number, text) in texts.iter().enumerate() {
        add_text(range, number, *text, &mut read)?;
    }
    Ok(read)
}
