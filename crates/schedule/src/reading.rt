//! Reads a schedule's text.
ghost use Rattle.std.specs.Prelude.{◌≡◌, ◌<◌, length, IfOk, Ok};
ghost use Rattle.texts.specs.Faults.{Gives};
ghost use Rattle.texts.specs.Lines.{lines_of, end_of};
ghost use Rattle.schedule.specs.Plans.{Plan};
ghost use Rattle.schedule.specs.Reading.{next_of, commands_of, schedule_of};
ghost use Rattle.schedule.specs.ScheduleText.{schedule_text, HasText};

use crate::action_line::read_action;
use crate::command::Command;
use crate::first_lines::{capacity_in, names_in};
use crate::schedule::{Capacity, Schedule};
use chart::Names;
use std::alloc::Global;
use texts::reading::{Guesses, next_line};
use texts::{Fault, TextError, at_line};

/// The next line, and what follows it, or F21.
fn next_in(bytes: &[u8]) -> Result<(&[u8], &[u8]), TextError>
    ensures line { Gives (λ next. (next.0.now, lines_of next.1.now)) result (next_of (lines_of bytes.now)) }
    ensures end { IfOk result (λ next. end_of next.1.now ≡ end_of bytes.now) }
{
    match next_line(bytes) {
        None => Err(TextError::Fault(Fault::Unfinished)),
        Some(next) => Ok(next),
    }
}

/// The commands, from line 3 on, or F21 if the last line has no line feed.
fn commands_in(alloc: Global, names: &Names, bytes: &[u8]) -> Result<Vec<Command>, TextError>
    ensures { Gives (λ commands. commands.items) result (commands_of names.now (lines_of bytes.now)
        (end_of bytes.now)) }
{
    let mut commands = Vec::new(alloc);
    let mut guesses = Guesses::new();
    let mut rest = bytes;
    let mut number = 3;
    'lines: loop {
        match next_line(rest) {
            None => break,
            Some((line, after)) => {
                let (actor, action) = at_line(number, read_action(names, &mut guesses, line))?;
                commands.push(Command {
                    line: number,
                    actor,
                    action,
                })?;
                rest = after;
                number += 1;
            }
        }
    }
    if !rest.is_empty() {
        return Err(TextError::Fault(Fault::Unfinished));
    }
    Ok(commands)
}

/// The parts of the text's schedule.
#[tactic(auto, unfolding(crate::specs::Reading::schedule_of))]
fn parts_in(alloc: Global, bytes: &[u8]) -> Result<(Names, Capacity, Vec<Command>), TextError>
    ensures { Gives (λ parts. record { names = parts.0; capacity = parts.1; commands = parts.2.items }) result
        (schedule_of bytes.now) }
{
    let (first, rest) = next_in(bytes)?;
    let names = names_in(alloc, first)?;
    let (second, rest) = next_in(rest)?;
    let capacity = at_line(2, capacity_in(second))?;
    let commands = commands_in(alloc, &names, rest)?;
    Ok((names, capacity, commands))
}

impl Schedule {
    /// The text's schedule, or the first fault of its first faulty line. It takes time in proportion to the text.
    ///
    /// The text that is read is that of the schedule to the byte, with its first command on line 3. Each such text is
    /// read. `specs/ScheduleText.antt` defines it.
    ///
    /// Each line ends with a line feed: `instances NAME NAME ..`, then `capacity N`, then one command on each line. A
    /// command is `NAME send NAME MESSAGE`, `NAME receive NAME`, `NAME any`, `NAME close NAME`, `NAME concurrent` or
    /// `NAME endconcurrent`. One space separates two words.
    ///
    /// F20 refuses a line of another form. Then these faults refuse a line:
    /// - F1 to F4: a word is no name.
    /// - F22: an instance's name was given before.
    /// - F8: there is one instance, or more than 32.
    /// - F9: the capacity is not from 1 to 64.
    /// - F23: a name is no instance's.
    /// - F13: an instance is its own partner.
    ///
    /// If no line has a fault, F21 refuses a text in two cases: its first two lines are not whole, or bytes follow the
    /// last line feed. F6 may come at any point.
    pub fn read(alloc: Global, bytes: &[u8]) -> Result<Schedule, TextError>
        ensures found { IfOk result (λ s. HasText s × (bytes.now ≡ schedule_text s)) }
        ensures only { (p : Plan) → HasText p → bytes.now ≡ schedule_text p → Gives (λ s. s) result (Ok p) }
        ensures exact { Gives (λ s. s) result (schedule_of bytes.now) }
    {
        let (names, capacity, commands) = parts_in(alloc, bytes)?;
        Ok(Schedule::new(names, capacity, commands))
    }
}
