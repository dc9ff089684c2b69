//! The turns of a run.
ghost use Rattle.std.specs.Prelude.{◌≡◌, ◌≤◌, AllPairs, IfOk};
ghost use Rattle.schedule.specs.Turns.Turns.{is_noted, makes_event, has_turn, turns_of};

use crate::{Action, Command, Note};
use chart::InstanceNo;
use std::alloc::{AllocError, Global};

/// Whether the command of this line left one of these notes, which are in the order of their lines.
pub fn is_noted(notes: &[Note], line: u64) -> bool
    requires { AllPairs (λ a b. a.line ≤ b.line) notes.now }
    ensures { result ≡ is_noted notes.now line }
{
    let place = notes.partition_point(|note| note.line < line);
    match notes.get(place) {
        Some(note) => note.line == line,
        None => false,
    }
}

/// Whether the action makes an event, if it isn't refused and finds a message.
fn makes_event(action: &Action) -> bool
    ensures { result ≡ makes_event action.now }
{
    matches!(
        action,
        Action::Send { .. } | Action::Receive { .. } | Action::Any
    )
}

/// Whether the command made an event.
fn has_turn(notes: &[Note], command: &Command) -> bool
    requires { AllPairs (λ a b. a.line ≤ b.line) notes.now }
    ensures { result ≡ has_turn notes.now command.now }
{
    makes_event(&command.action) && !is_noted(notes, command.line)
}

/// The turns of the run of these commands, which left these notes, by line. F6: it fails only if there is no memory.
pub fn turns_of(
    alloc: Global,
    commands: &[Command],
    notes: &[Note],
) -> Result<Vec<InstanceNo>, AllocError>
    requires { AllPairs (λ a b. a.line ≤ b.line) notes.now }
    ensures { IfOk result (λ turns. turns.items ≡ turns_of commands.now notes.now) }
{
    let mut turns = Vec::new(alloc);
    for command in commands {
        if has_turn(notes, command) {
            turns.push(command.actor)?;
        }
    }
    Ok(turns)
}
