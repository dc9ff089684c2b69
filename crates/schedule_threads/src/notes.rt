//! The notes of instances that ran their scripts.
ghost use Rattle.std.specs.Prelude.{◌≡◌, ◌≤◌, ◌++◌, ◌∷◌, [], IfOk, OnOk, length, replicate, slice_get, option_to_list};
ghost use Rattle.std.specs.Prelude.{false};
ghost use Rattle.std.specs.List.{list_any};
ghost use Rattle.chart.specs.declared.instance.TheConstants.{MAX_INSTANCES};
ghost use Rattle.schedule_threads.specs.Passing.{Passes};
ghost use Rattle.schedule_threads.specs.RunNotes.{word_of, is_memory, lines_of, note_of, notes_from, all_notes};
ghost use Rattle.schedule_threads.specs.RunOutcomes.{lacked_memory};

use behaviour::{BareAnswer, next_place};
use board::{CloseError, RegionError, SendError, TakeError};
use chart::InstanceNo;
use instances::{Stretch, Trace, Turn};
use schedule::{Command, Note, Word};
use std::alloc::{AllocError, Global};

/// The word of the note that an answer leaves. The answers full and nothing leave none, since the script does its act
/// again.
fn word_of(answer: &BareAnswer) -> Option<Word>
    ensures { result ≡ word_of answer.now }
{
    match answer {
        BareAnswer::Ended => Some(Word::Ended),
        BareAnswer::Unsent(SendError::InCoregion) => Some(Word::InCoregion),
        BareAnswer::Unsent(SendError::Closed) | BareAnswer::Unclosed(CloseError::Closed) => Some(
            Word::Closed,
        ),
        BareAnswer::Unsent(SendError::LineFull) | BareAnswer::Unreceived(TakeError::LineFull) =>
            Some(Word::LineFull),
        BareAnswer::Unmarked(RegionError::CoregionOpen) => Some(Word::Open),
        BareAnswer::Unmarked(RegionError::CoregionNotOpen) => Some(Word::NotOpen),
        _ => None,
    }
}

/// Hands on F6, if that is the answer.
fn refused_memory(answer: &BareAnswer) -> Result<(), AllocError>
    ensures { OnOk result (is_memory answer.now ≡ false) }
{
    match answer {
        BareAnswer::Unsent(SendError::Memory) | BareAnswer::Unreceived(TakeError::Memory) => {
            Err(AllocError)
        }
        _ => Ok(()),
    }
}

/// The line of the command at a place, if there is one.
fn line_at(lines: &[u64], place: usize) -> Option<u64>
    ensures { result ≡ slice_get lines.now place }
{
    lines.get(place).copied()
}

/// The note that an answer leaves for the command of this line, if there is one.
fn note_of(line: Option<u64>, answer: &BareAnswer) -> Option<Note>
    ensures { option_to_list result ≡ note_of line (word_of answer.now) }
{
    match (line, word_of(answer)) {
        (Some(line), Some(word)) => Some(Note { line, word }),
        _ => None,
    }
}

/// Adds the note of a turn of the command at a place, and returns the place of the next turn's command.
///
/// F6: a growth was refused, or it was the answer of the turn.
fn add_turn(
    notes: &mut Vec<Note>,
    lines: &[u64],
    place: usize,
    turn: &Turn,
) -> Result<usize, AllocError>
    ensures { IfOk result (Passes lines.now notes.old.items place (turn.now ∷ []) notes.new.items) }
{
    let Some(answer) = &turn.answer else {
        return Ok(place);
    };
    refused_memory(answer)?;
    if let Some(note) = note_of(line_at(lines, place), answer) {
        notes.push(note)?;
    }
    Ok(next_place(lines.len(), place, *answer))
}

/// The same for equal turns.
fn add_stretch(
    notes: &mut Vec<Note>,
    lines: &[u64],
    place: usize,
    stretch: &Stretch,
) -> Result<usize, AllocError>
    ensures { IfOk result
        (Passes lines.now notes.old.items place (replicate stretch.now.count stretch.now.turn) notes.new.items) }
{
    let mut next = place;
    for _ in 0..stretch.count {
        next = add_turn(notes, lines, next, &stretch.turn)?;
    }
    Ok(next)
}

/// Adds the notes of an instance, by the lines of its commands.
fn add_trace(notes: &mut Vec<Note>, lines: &[u64], trace: &Trace) -> Result<(), AllocError>
    ensures notes { OnOk result (notes.new.items ≡ notes.old.items ++ notes_from lines.now 0 trace.now) }
    ensures memory { OnOk result (lacked_memory trace.now ≡ false) }
{
    let stretches = trace.stretches();
    let mut next = 0;
    for stretch in stretches {
        next = add_stretch(notes, lines, next, stretch)?;
    }
    Ok(())
}

/// The lines of an instance's commands.
fn lines_of(alloc: Global, commands: &[Command], actor: InstanceNo) -> Result<Vec<u64>, AllocError>
    ensures { IfOk result (λ lines. lines.items ≡ lines_of commands.now actor) }
{
    let mut lines = Vec::new(alloc);
    for command in commands {
        if command.actor == actor {
            lines.push(command.line)?;
        }
    }
    Ok(lines)
}

/// The notes of all instances, one instance after another, from their traces.
///
/// F6: a growth was refused, or it was the answer to an act.
pub(crate) fn all_notes(
    alloc: Global,
    commands: &[Command],
    traces: &[Trace],
) -> Result<Vec<Note>, AllocError>
    requires { length traces.now ≤ MAX_INSTANCES }
    ensures notes { IfOk result (λ notes. notes.items ≡ all_notes commands.now 1 traces.now) }
    ensures memory { OnOk result (list_any lacked_memory traces.now ≡ false) }
{
    let mut notes = Vec::new(alloc);
    for (place, trace) in traces.iter().enumerate() {
        let lines = lines_of(alloc, commands, InstanceNo::at_place(place))?;
        add_trace(&mut notes, lines.as_slice(), trace)?;
    }
    Ok(notes)
}
