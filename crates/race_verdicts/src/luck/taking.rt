//! The messages that a receive would have taken.
ghost use Rattle.std.specs.Prelude.{◌≡◌, ◌<◌, ◌≤◌, ◌↔◌, length, Some, map, AllPairs, IfOk, IsTrue};
ghost use Rattle.race_verdicts.specs.Luck.Tables.{IsFirst};
ghost use Rattle.race_verdicts.specs.Luck.Taking.{FitsSender, FitsName, Fits, WouldTake};
ghost use Rattle.race_verdicts.specs.Luck.TakingTables.{IsOfLine, ArePlaced, IsFitting};
ghost use Rattle.race_verdicts.specs.Recordings.{pattern_view, taken_view, words_view, recording_view};

use crate::luck::tables::Table;
use crate::{LineWords, Pattern, Recording, Taken};
use std::alloc::{AllocError, Global};
use std::marker::Model;

fn fits_sender(peer: &[u8], sender: &[u8]) -> bool
    ensures { IsTrue result ↔ FitsSender peer.now sender.now }
{
    peer == b"*".as_slice() || peer == sender
}

fn fits_name(names: &[u8], name: &[u8]) -> bool
    ensures { IsTrue result ↔ FitsName names.now name.now }
{
    match names.strip_suffix(b"*") {
        Some(front) => name.starts_with(front),
        None => names == name,
    }
}

/// Whether a message with these words fits the pattern.
fn fits(pattern: &Pattern<'_>, words: &LineWords<'_>) -> bool
    ensures { IsTrue result ↔ Fits (pattern_view pattern.now) (words_view words.now) }
{
    fits_sender(pattern.peer, words.host) && fits_name(pattern.names, words.name)
}

/// Whether a message with these words fits one of the patterns of a line. `first` is the place of the line's first
/// pattern.
fn any_fits(taken: &[Taken<'_>], first: usize, line: usize, words: &LineWords<'_>) -> bool
    requires first { IsFirst (IsOfLine (map taken_view taken.now) line) (length taken.now) (Some first) }
    requires rising { AllPairs (λ a b. a.line ≤ b.line) (map taken_view taken.now) }
    ensures { IsTrue result ↔ IsFitting (map taken_view taken.now) line (words_view words.now) }
{
    for place in first..taken.len() {
        let stated = &taken[place];
        if stated.line != line {
            return false;
        }
        if fits(&stated.pattern, words) {
            return true;
        }
    }
    false
}

/// For each of `count` lines, the place of its first pattern.
fn places_of(alloc: Global, count: usize, taken: &[Taken<'_>]) -> Result<Table, AllocError>
    ensures { IfOk result (ArePlaced (map taken_view taken.now) count) }
{
    let mut places = Table::none(alloc, count)?;
    for (place, stated) in taken.iter().enumerate() {
        places.note(stated.line, place);
    }
    Ok(places)
}

/// The messages that receives would have taken. Contracts see the recording.
#[derive(Drop)]
pub(crate) struct Taking<'a> {
    recording: Recording<'a>,
    /// For each line, the place of its first pattern.
    places: Table,
}

impl<'a> Model for Taking<'a> {
    ghost use Rattle.race_verdicts.specs.Recordings.{RecordingView, recording_view};
    ghost use Rattle.race_verdicts.specs.Luck.TakingTables.{IsTaking};

    ghost Value = { RecordingView };

    ghost view = { λ t. recording_view t.recording };

    ghost invariant = { λ t. IsTaking (recording_view t.recording) t.places };
}

impl<'a> Taking<'a> {
    /// The patterns of a recording, which are in the order of their lines.
    pub(crate) fn of(alloc: Global, recording: Recording<'a>) -> Result<Taking<'a>, AllocError>
        requires { AllPairs (λ a b. a.line ≤ b.line) (recording_view recording).taken }
        ensures { IfOk result (λ taking. taking ≡ recording_view recording.entry) }
    {
        let places = places_of(alloc, recording.lines.len(), recording.taken)?;
        Ok(Taking { recording, places })
    }

    /// Whether the receive of `line` would have taken the message that `send` sends.
    pub(crate) fn would_take(&self, line: usize, send: usize) -> bool
        requires line { line < length self.now.lines }
        requires send { send < length self.now.words }
        ensures { IsTrue result ↔ WouldTake self.now line send }
    {
        let Some(first) = self.places.at(line) else {
            return true;
        };
        any_fits(
            self.recording.taken,
            first,
            line,
            &self.recording.words[send],
        )
    }
}
