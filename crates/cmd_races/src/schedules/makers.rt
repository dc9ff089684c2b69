//! The commands that make a schedule's receives.
ghost use Rattle.std.specs.Prelude.{◌≡◌, ◌≤◌, length, map, AllPairs, IfOk};
ghost use Rattle.cmd_races.specs.Schedules.Makers.{names_sender, receives, has_received};
ghost use Rattle.cmd_races.specs.Schedules.Tables.{kinds, named, named_lines};

use chart::{Event, InstanceNo, Line};
use schedule::turns::is_noted;
use schedule::{Action, Command, Note};
use std::alloc::{AllocError, Global};

/// Whether the action receives from one named instance.
fn names_sender(action: &Action) -> bool
    ensures { result ≡ names_sender action.now }
{
    matches!(action, Action::Receive { .. })
}

/// Whether it receives.
fn receives(action: &Action) -> bool
    ensures { result ≡ receives action.now }
{
    matches!(action, Action::Receive { .. } | Action::Any)
}

/// Whether the command is one of the instance, and received a message.
fn has_received(notes: &[Note], instance: InstanceNo, command: &Command) -> bool
    requires { AllPairs (λ a b. a.line ≤ b.line) notes.now }
    ensures { result ≡ has_received notes.now instance command.now }
{
    command.actor == instance && receives(&command.action) && !is_noted(notes, command.line)
}

/// For each of an instance's commands that received a message, whether it named its sender.
fn kinds_of(
    alloc: Global,
    commands: &[Command],
    notes: &[Note],
    instance: InstanceNo,
) -> Result<Vec<bool>, AllocError>
    requires { AllPairs (λ a b. a.line ≤ b.line) notes.now }
    ensures { IfOk result (λ some. some.items ≡ kinds commands.now notes.now instance) }
{
    let mut some = Vec::new(alloc);
    for command in commands {
        if has_received(notes, instance, command) {
            some.push(names_sender(&command.action))?;
        }
    }
    Ok(some)
}

/// For each event of a line, whether its command named its sender. The kinds are those of the line's receives.
fn named_of(alloc: Global, some: &[bool], events: &[Event]) -> Result<Vec<bool>, AllocError>
    ensures { IfOk result (λ table. table.items ≡ named some.now events.now) }
{
    let mut table = Vec::new(alloc);
    let mut rest = some;
    for event in events {
        match (event, rest) {
            (Event::Receive { .. }, [kind, later @ ..]) => {
                table.push(*kind)?;
                rest = later;
            }
            _ => table.push(false)?,
        }
    }
    Ok(table)
}

/// For each event of a line, whether its command named its sender.
fn line_named(
    alloc: Global,
    commands: &[Command],
    notes: &[Note],
    line: &Line,
) -> Result<Vec<bool>, AllocError>
    requires { AllPairs (λ a b. a.line ≤ b.line) notes.now }
    ensures { IfOk result (λ table. table.items ≡ named (kinds commands.now notes.now line.now.instance) line.now.events) }
{
    let some = kinds_of(alloc, commands, notes, line.instance())?;
    named_of(alloc, &some, line.events())
}

/// For each event of each line, whether its command named its sender.
pub(crate) fn lines_named(
    alloc: Global,
    commands: &[Command],
    notes: &[Note],
    lines: &[Line],
) -> Result<Vec<Vec<bool>>, AllocError>
    requires { AllPairs (λ a b. a.line ≤ b.line) notes.now }
    ensures { IfOk result (λ tables. map (λ table. table.items) tables.items ≡ named_lines commands.now notes.now lines.now) }
{
    let mut tables = Vec::new(alloc);
    for line in lines {
        tables.push(line_named(alloc, commands, notes, line)?)?;
    }
    Ok(tables)
}
