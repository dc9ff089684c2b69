//! Charts of 32 lines with 4,096 events each, by the traffic on them.
ghost use Rattle.std.specs.Prelude.{◌<◌};

use std::convert::AsStr;
use texts::{Out, TextBuffer, WriteError};

/// The number of instances.
const LINES: usize = 32;

/// The number of events of a line.
const EVENTS: usize = 4096;

/// The number of messages in a burst.
const BURST: usize = 64;

/// The traffic of a chart.
#[derive(Clone, Copy, Debug, PartialEq, Eq)]
pub enum Pattern {
    /// A token goes round. No receive has a race.
    Token,
    /// In each turn every instance sends to one instance, and receives from one. There are some races.
    Mixed,
    /// Half of the instances send bursts to the other half, which sends nothing. Nearly every pair of receives of a
    /// line is a race.
    Bursts,
}

/// An event, with the line of its partner.
enum Step {
    Send(usize),
    Receive(usize),
}

/// The traffic with this name.
pub fn pattern_in(word: &str) -> Option<Pattern> {
    match word {
        "token" => Some(Pattern::Token),
        "mixed" => Some(Pattern::Mixed),
        "bursts" => Some(Pattern::Bursts),
        _ => None,
    }
}

/// The first instance sends before it receives, and the others receive before they send.
fn token_step(line: usize, index: usize) -> Step
    requires { line < LINES }
{
    if (line == 0) == (index % 2 == 0) {
        Step::Send((line + 1) % LINES)
    } else {
        Step::Receive((line + LINES - 1) % LINES)
    }
}

/// In each turn the distance from the sender to the receiver is another one.
fn mixed_step(line: usize, index: usize) -> Step
    requires line { line < LINES }
    requires index { index < EVENTS }
{
    let by = 1 + index / 2 * 7 % (LINES - 1);
    if index % 2 == 0 {
        Step::Send((line + by) % LINES)
    } else {
        Step::Receive((line + LINES - by) % LINES)
    }
}

/// The first half of the instances receive, and the other half send.
fn bursts_step(line: usize, index: usize) -> Step
    requires { line < LINES }
{
    let half = LINES / 2;
    let turn = index / BURST % half;
    if line < half {
        Step::Receive(half + (line + turn) % half)
    } else {
        Step::Send((line - turn) % half)
    }
}

fn step_of(pattern: Pattern, line: usize, index: usize) -> Step
    requires line { line < LINES }
    requires index { index < EVENTS }
{
    match pattern {
        Pattern::Token => token_step(line, index),
        Pattern::Mixed => mixed_step(line, index),
        Pattern::Bursts => bursts_step(line, index),
    }
}

fn add_step<W: Out>(text: &mut TextBuffer<'_, W>, step: Step) -> Result<(), WriteError> {
    let partner = match step {
        Step::Send(to) => {
            text.add(b"out msg to n")?;
            to
        }
        Step::Receive(from) => {
            text.add(b"in msg from n")?;
            from
        }
    };
    text.add_number(partner as u64)?;
    text.add(b";\n")
}

fn add_line<W: Out>(
    text: &mut TextBuffer<'_, W>,
    pattern: Pattern,
    line: usize,
) -> Result<(), WriteError>
    requires { line < LINES }
{
    text.add(b"instance n")?;
    text.add_number(line as u64)?;
    text.add(b";\n")?;
    for index in 0..EVENTS {
        add_step(text, step_of(pattern, line, index))?;
    }
    text.add(b"endinstance;\n")
}

/// Writes the text of the chart with this traffic.
pub fn write_chart<W: Out>(pattern: Pattern, out: &mut W) -> Result<(), WriteError> {
    let mut text = TextBuffer::new(out);
    text.add(b"msc run;\n")?;
    for line in 0..LINES {
        add_line(&mut text, pattern, line)?;
    }
    text.add(b"endmsc;\n")?;
    text.finish()
}
