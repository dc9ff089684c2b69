//! Faults with their places.
ghost use Rattle.std.specs.Prelude.{◌≡◌};
ghost use Rattle.cmd_explain_file.specs.Findings.{begin, wanted, fault_finding, unfinished_want, unfinished, line_finding, behind_finding, no_send, other_name, at_line, note_finding, no_chart, not_read, diagram_end, unread_finding};
ghost use Rattle.fault_places.specs.Standings.{first_or};
ghost use Rattle.texts.specs.Lines.{lines_of, end_of};

use crate::kind::Kind;
use crate::verdict::Unread;
use chart::EventNo;
use diagram_join::JoinError;
use fault_places::{Want, count_of_lines, line_from, line_of_event, spot_in, standing_at};
use schedule::{Note, Word};
use texts::{Cause, Fault};

/// The kind of a fault or note.
#[derive(Clone, Copy, Debug, PartialEq, Eq)]
pub(crate) enum What {
    /// The fault of a line.
    Line(Cause),
    /// F21: the text ends too early.
    Unfinished,
    /// F16: no message was sent for a receive.
    NoSend,
    /// F17: the message was sent with another name.
    OtherName,
    /// Text follows a chart.
    Behind,
    /// A command was refused, or found nothing.
    Note(Word),
    /// F35: the text at the place can't be read.
    NotRead,
    /// F37: no chart is possible with this line.
    NotPossible,
    /// F34: a line to join doesn't exist.
    NoSuchName,
    /// G1: a line to skip doesn't exist.
    Usage,
}

/// A fault or note of a line: its kind, its place, and what may stand there.
#[derive(Clone, Copy, Debug)]
pub(crate) struct Finding {
    pub what: What,
    /// The line's number, from 1.
    pub line: u64,
    /// The place, as the number of bytes before it on the line.
    pub place: usize,
    pub want: Option<Want>,
}

/// What may stand at the beginning of the line with this number, in a text of this kind.
#[tactic(auto, unfolding(crate::specs::Findings::begin))]
fn begin(kind: Kind, text: &[u8], line: u64) -> Want
    ensures { result ≡ begin kind text.now line }
{
    match kind {
        Kind::Schedule => match line {
            1 => Want::Instances,
            2 => Want::Capacity,
            _ => Want::Actor,
        },
        Kind::Chart => standing_at(text, line).want,
        Kind::Diagram(_) | Kind::Other => Want::Begin,
    }
}

/// What may be at the place of a fault. It is unknown for an event too many.
fn wanted(cause: Cause, want: Want) -> Option<Want>
    ensures { result ≡ wanted cause want }
{
    match cause {
        Cause::LineFull => None,
        _ => Some(want),
    }
}

/// The fault of this cause in the line with this number.
#[tactic(auto, unfolding(crate::specs::Findings::line_finding))]
fn line_finding(kind: Kind, text: &[u8], line: u64, cause: Cause) -> Finding
    ensures { result ≡ line_finding kind text.now line cause }
{
    let known = line_from(text);
    let bytes = line_from(standing_at(text, line).text);
    let spot = spot_in(cause, known, bytes, begin(kind, text, line));
    Finding {
        what: What::Line(cause),
        line,
        place: spot.place,
        want: wanted(cause, spot.want),
    }
}

/// What may follow a text that ends too early. `end` is its last line, without a line feed.
#[tactic(auto, unfolding(crate::specs::Findings::unfinished_want))]
fn unfinished_want(kind: Kind, text: &[u8], line: u64, end: &[u8]) -> Want
    ensures { result ≡ unfinished_want kind text.now line end.now }
{
    if end.is_empty() {
        begin(kind, text, line)
    } else {
        Want::LineFeed
    }
}

/// F21, at the end of the text.
#[tactic(auto, unfolding(crate::specs::Findings::unfinished))]
fn unfinished(kind: Kind, text: &[u8]) -> Finding
    ensures { result ≡ unfinished kind text.now }
{
    let line = count_of_lines(text) + 1;
    let end = line_from(standing_at(text, line).text);
    Finding {
        what: What::Unfinished,
        line,
        place: end.len(),
        want: Some(unfinished_want(kind, text, line, end)),
    }
}

/// The first fault of a text of this kind.
#[tactic(auto, unfolding(crate::specs::Findings::fault_finding))]
pub(crate) fn fault_finding(kind: Kind, text: &[u8], fault: Fault) -> Finding
    ensures { result ≡ fault_finding kind text.now fault }
{
    match fault {
        Fault::Line(line, cause) => line_finding(kind, text, line, cause),
        Fault::Unfinished => unfinished(kind, text),
    }
}

/// The note about text after a chart, by the fault of the whole text.
#[tactic(auto, unfolding(crate::specs::Findings::behind_finding))]
pub(crate) fn behind_finding(kind: Kind, text: &[u8], fault: Fault) -> Finding
    ensures { result ≡ behind_finding kind text.now fault }
{
    let found = fault_finding(kind, text, fault);
    Finding {
        what: What::Behind,
        line: found.line,
        place: found.place,
        want: None,
    }
}

/// A receive for which no message was sent.
#[tactic(auto, unfolding(crate::specs::Findings::no_send))]
pub(crate) fn no_send(text: &[u8], receive: EventNo) -> Finding
    ensures { result ≡ no_send text.now receive }
{
    Finding {
        what: What::NoSend,
        line: line_of_event(text, receive.instance.number(), receive.index),
        place: 0,
        want: None,
    }
}

/// A receive whose message was sent with another name.
#[tactic(auto, unfolding(crate::specs::Findings::other_name))]
pub(crate) fn other_name(text: &[u8], receive: EventNo) -> Finding
    ensures { result ≡ other_name text.now receive }
{
    Finding {
        what: What::OtherName,
        line: line_of_event(text, receive.instance.number(), receive.index),
        place: 3,
        want: None,
    }
}

/// A fault of a whole line.
fn at_line(what: What, line: u64) -> Finding
    ensures { result ≡ at_line what line }
{
    Finding {
        what,
        line,
        place: 0,
        want: None,
    }
}

/// A note that a command leaves.
pub(crate) fn note_finding(note: Note) -> Finding
    ensures { result ≡ note_finding note }
{
    at_line(What::Note(note.word), note.line)
}

/// The fault of a diagram that has no chart.
#[tactic(auto, unfolding(crate::specs::Findings::no_chart))]
fn no_chart(error: JoinError) -> Finding
    ensures { result ≡ no_chart error }
{
    match error {
        JoinError::Memory | JoinError::NoSuchLine => at_line(What::NoSuchName, 1),
        JoinError::Taken(line) => at_line(What::Line(Cause::Duplicate), line),
        JoinError::Instances => at_line(What::Line(Cause::Instances), 1),
        JoinError::NotPossible(line) => at_line(What::NotPossible, line),
        JoinError::LineFull(line) => at_line(What::Line(Cause::LineFull), line),
    }
}

/// A place whose text can't be read.
fn not_read(line: u64, column: u64) -> Finding
    ensures { result ≡ not_read line column }
{
    Finding {
        what: What::NotRead,
        line,
        place: column.saturating_sub(1) as usize,
        want: None,
    }
}

/// The end of a diagram's text.
#[tactic(auto, unfolding(crate::specs::Findings::diagram_end))]
fn diagram_end(kind: Kind, text: &[u8]) -> Finding
    ensures { result ≡ diagram_end kind text.now }
{
    let end = unfinished(kind, text);
    Finding {
        what: What::Unfinished,
        line: end.line,
        place: end.place,
        want: None,
    }
}

/// The fault of a diagram that can't be imported.
#[tactic(auto, unfolding(crate::specs::Findings::unread_finding))]
pub(crate) fn unread_finding(kind: Kind, text: &[u8], why: Unread) -> Finding
    ensures { result ≡ unread_finding kind text.now why }
{
    match why {
        Unread::Usage => at_line(What::Usage, 1),
        Unread::NotRead(place) => not_read(place.line, place.column),
        Unread::Unfinished => diagram_end(kind, text),
        Unread::UnknownInstance(line) => at_line(What::Line(Cause::UnknownInstance), line),
        Unread::NoChart(error) => no_chart(error),
    }
}
