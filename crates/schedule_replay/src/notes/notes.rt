//! The notes that a schedule's commands leave, and the sends that come too late.
ghost use Rattle.std.specs.Prelude.{◌≡◌, ◌<◌, ◌∷◌, ◌++◌, List, Option, None, length, slice_index_or, IfOk, OnOk};
ghost use Rattle.schedule.specs.declared.command.Command.{Command};
ghost use Rattle.schedule.specs.declared.command.Word.{Word};
ghost use Rattle.schedule_replay.specs.Notes.Notes.{later_for, note_if, noted, AreNext, AreNotesOf};

use crate::notes::lanes::LaneTable;
use crate::notes::words::words_of;
use schedule::outcomes::ReplayError;
use schedule::{Action, Command, Note, Schedule, Word};
use std::alloc::{AllocError, Global};

/// A note that a command leaves, and the line of the send that comes too late for it.
#[derive(Clone, Copy, Debug)]
pub struct Noted {
    pub note: Note,
    pub later: Option<u64>,
}

/// The line of the send that comes too late for a command that left this word, from the next send of each lane.
fn later_for(next: &LaneTable, word: Word, command: &Command) -> Option<u64>
    ensures { (commands : List Command) (left : List (Option Word)) → AreNext next.now commands left
        → result ≡ later_for word command.now.actor command.now.action commands left }
{
    match word {
        Word::Nothing => match command.action {
            Action::Receive { from } => next.at(from, command.actor),
            _ => None,
        },
        _ => None,
    }
}

/// Enters the command as the next send of its lane, if it sends.
fn put_send(next: &mut LaneTable, command: &Command)
    ensures { (commands : List Command) (left : List (Option Word)) → AreNext next.old commands left
        → AreNext next.new (command.now ∷ commands) (None ∷ left) }
{
    if let Action::Send { to, .. } = command.action {
        next.set(command.actor, to, command.line);
    }
}

/// What the command at this place left.
fn word_at(words: &[Option<Word>], place: usize) -> Option<Word>
    requires { place < length words.now }
    ensures { result ≡ slice_index_or words.now place None }
{
    words[place]
}

/// Goes on to the command above: adds its note, if it leaves one, or enters its send.
fn pass(
    notes: &mut Vec<Noted>,
    next: &mut LaneTable,
    command: &Command,
    word: Option<Word>,
) -> Result<(), AllocError>
    ensures notes { OnOk result ((commands : List Command) (left : List (Option Word))
        → AreNext next.old commands left
        → notes.new.items ≡ notes.old.items ++ note_if command.now word commands left) }
    ensures lanes { OnOk result ((commands : List Command) (left : List (Option Word))
        → AreNext next.old commands left → AreNext next.new (command.now ∷ commands) (word ∷ left)) }
{
    match word {
        None => put_send(next, command),
        Some(word) => notes.push(Noted {
            note: Note {
                line: command.line,
                word,
            },
            later: later_for(next, word, command),
        })?,
    }
    Ok(())
}

/// The notes of these commands, each of which left this word. It begins with the last command, so all later sends are
/// known.
fn noted_all(
    alloc: Global,
    commands: &[Command],
    words: &[Option<Word>],
) -> Result<Vec<Noted>, AllocError>
    requires { length words.now ≡ length commands.now }
    ensures { IfOk result (λ notes. notes.items ≡ noted commands.now words.now) }
{
    let mut next = LaneTable::none(alloc)?;
    let mut notes = Vec::new(alloc);
    let mut place = commands.len();
    'commands: while place > 0 {
        place -= 1;
        let word = word_at(words, place);
        pass(&mut notes, &mut next, &commands[place], word)?;
    }
    notes.reverse();
    Ok(notes)
}

/// The notes that the schedule's commands leave, in order. F6: it fails only if there is no memory.
pub fn notes_of(alloc: Global, schedule: &Schedule) -> Result<Vec<Noted>, AllocError>
    ensures { IfOk result (λ v. AreNotesOf schedule.now v.items) }
{
    match words_of(alloc, schedule) {
        Ok(words) => noted_all(alloc, schedule.commands(), words.as_slice()),
        Err(ReplayError::Memory) => Err(AllocError),
    }
}
