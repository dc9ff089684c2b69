//! The explanation of a file, as a list of parts, and its text.
ghost use Rattle.std.specs.Prelude.{◌≡◌, ◌≤◌, length, min};
ghost use Rattle.std.specs.List.{flat_map};
ghost use Rattle.cmd_explain_file.specs.Sayings.{before, behind, head_text, at_text, bar_text, quote_text, caret_text, want_text, wanted_text, shown_text, numbered_text, finding_text, sent_text, later_text, noted_text, read_text, text_by_line, shown_line, saying_text, IsFrom, bar, arrow, here, stands, caret, end};
ghost use Rattle.texts.specs.Writing.{Wrote, Adds};

use crate::adding::{add_blanks, add_margin, add_shown};
use crate::finding::{Finding, What, note_finding};
use crate::going_on::text_from;
use crate::kind::Kind;
use crate::undone::add_undone;
use crate::words::{
    cyclic_words, kind_words, log_words, start_of, tidy_words, want_words, what_label, what_words,
};
use cmd_import_diagram::{add_left_out, add_overtaking};
use diagram_join::Overtaking;
use diagrams::LeftOut;
use fault_places::{Step, Want, add_step, line_from};
use schedule_replay::notes::Noted;
use texts::pieces::{Piece, add_pieces};
use texts::{Out, TextBuffer, WriteError};

/// A part of the explanation of a file.
#[derive(Clone, Copy, Debug)]
pub(crate) enum Saying {
    /// The kind of the file.
    Kind(Kind),
    /// The file has no fault.
    Read,
    /// The text is read, and this number of its commands did nothing.
    Undone(u64),
    /// A fault or note, with its place.
    Finding(Finding),
    /// A fault of the exact text, with the number of its line in the typed file.
    Typed(Finding, u64),
    /// A note that a command leaves.
    Note(Noted),
    /// A construct that a diagram's chart can't express.
    LeftOut(LeftOut),
    /// A message that overtakes another one.
    Overtaking(Overtaking),
    /// F18: the words before the steps of a cycle.
    Cyclic,
    /// A step of the cycle.
    Step(Step),
    /// The hint that `mscview tidy` makes a text without fault from the file.
    Tidy,
    /// The hint how to read a log.
    Log,
}

/// The part of a line that is shown before a place.
fn before(line: &[u8], place: usize) -> &[u8]
    requires { place ≤ length line.now }
    ensures { result.now ≡ before line.now place }
{
    let all = &line[..place];
    &all[place.saturating_sub(60)..]
}

/// The part of a line that is shown from a place on.
fn behind(line: &[u8], place: usize) -> &[u8]
    requires { place ≤ length line.now }
    ensures { result.now ≡ behind line.now place }
{
    let all = &line[place..];
    &all[..all.len().min(40)]
}

/// Adds the heading of a fault or note.
#[tactic(auto, unfolding(crate::specs::Sayings::head_text))]
fn add_head<W: Out>(text: &mut TextBuffer<'_, W>, what: What) -> Result<(), WriteError>
    ensures { Adds W.sink text.old text.new result (head_text what) }
{
    add_pieces(
        text,
        &[
            Piece::Bytes(start_of(what)),
            Piece::Bytes(what_label(what)),
            Piece::Bytes(b": "),
            Piece::Bytes(what_words(what)),
            Piece::Bytes(b"\n"),
        ],
    )
}

#[tactic(auto, unfolding(crate::specs::Sayings::arrow))]
fn add_arrow<W: Out>(text: &mut TextBuffer<'_, W>, line: u64, column: u64) -> Result<(), WriteError>
    ensures { Adds W.sink text.old text.new result (arrow line column) }
{
    add_pieces(
        text,
        &[
            Piece::Bytes(b"--> line "),
            Piece::Number(line),
            Piece::Bytes(b", column "),
            Piece::Number(column),
            Piece::Bytes(b"\n"),
        ],
    )
}

/// Adds its position.
#[tactic(auto, using(texts::proofs::Writes::joining), unfolding(crate::specs::Sayings::at_text))]
fn add_at<W: Out>(text: &mut TextBuffer<'_, W>, line: u64, column: u64) -> Result<(), WriteError>
    ensures { Adds W.sink text.old text.new result (at_text line column) }
{
    add_margin(text, line)?;
    add_arrow(text, line, column)
}

#[tactic(auto, unfolding(crate::specs::Sayings::bar))]
fn add_bar_alone<W: Out>(text: &mut TextBuffer<'_, W>) -> Result<(), WriteError>
    ensures { Adds W.sink text.old text.new result bar }
{
    text.add(b" |\n")
}

/// Adds an empty line of the margin.
#[tactic(auto, using(texts::proofs::Writes::joining), unfolding(crate::specs::Sayings::bar_text))]
fn add_bar<W: Out>(text: &mut TextBuffer<'_, W>, line: u64) -> Result<(), WriteError>
    ensures { Adds W.sink text.old text.new result (bar_text line) }
{
    add_margin(text, line)?;
    add_bar_alone(text)
}

#[tactic(auto, unfolding(crate::specs::Sayings::stands))]
fn add_stands<W: Out>(text: &mut TextBuffer<'_, W>) -> Result<(), WriteError>
    ensures { Adds W.sink text.old text.new result stands }
{
    text.add(b" | ")
}

#[tactic(auto, unfolding(crate::specs::Sayings::end))]
fn add_end<W: Out>(text: &mut TextBuffer<'_, W>) -> Result<(), WriteError>
    ensures { Adds W.sink text.old text.new result end }
{
    text.add(b"\n")
}

#[tactic(auto, unfolding(crate::specs::Sayings::caret))]
fn add_caret_alone<W: Out>(text: &mut TextBuffer<'_, W>) -> Result<(), WriteError>
    ensures { Adds W.sink text.old text.new result caret }
{
    text.add(b"^\n")
}

/// Adds the line itself, by the parts that are shown before and after the place.
#[tactic(auto, using(texts::proofs::Writes::joining), unfolding(crate::specs::Sayings::quote_text))]
fn add_quote<W: Out>(
    text: &mut TextBuffer<'_, W>,
    line: u64,
    before: &[u8],
    behind: &[u8],
) -> Result<(), WriteError>
    ensures { Adds W.sink text.old text.new result (quote_text line before.now behind.now) }
{
    text.add_number(line)?;
    add_stands(text)?;
    add_shown(text, before)?;
    add_shown(text, behind)?;
    add_end(text)
}

/// Adds the caret, by the part that is shown before the place.
#[tactic(auto, using(texts::proofs::Writes::joining), unfolding(crate::specs::Sayings::caret_text))]
fn add_caret<W: Out>(
    text: &mut TextBuffer<'_, W>,
    line: u64,
    before: &[u8],
) -> Result<(), WriteError>
    ensures { Adds W.sink text.old text.new result (caret_text line before.now) }
{
    add_margin(text, line)?;
    add_stands(text)?;
    add_blanks(text, before)?;
    add_caret_alone(text)
}

#[tactic(auto, unfolding(crate::specs::Sayings::here))]
fn add_here<W: Out>(text: &mut TextBuffer<'_, W>) -> Result<(), WriteError>
    ensures { Adds W.sink text.old text.new result here }
{
    text.add(b" = here may stand: ")
}

#[tactic(auto, using(texts::proofs::Writes::joining), unfolding(crate::specs::Sayings::wanted_text))]
fn add_wanted<W: Out>(text: &mut TextBuffer<'_, W>, want: Want) -> Result<(), WriteError>
    ensures { Adds W.sink text.old text.new result (wanted_text want) }
{
    add_here(text)?;
    text.add(want_words(want))?;
    add_end(text)
}

/// Adds what may stand at the place, if that is known.
#[tactic(auto, using(texts::proofs::Writes::joining), unfolding(crate::specs::Sayings::want_text))]
fn add_want<W: Out>(
    text: &mut TextBuffer<'_, W>,
    line: u64,
    want: Option<Want>,
) -> Result<(), WriteError>
    ensures { Adds W.sink text.old text.new result (want_text line want) }
{
    match want {
        None => text.add(b""),
        Some(want) => {
            add_margin(text, line)?;
            add_wanted(text, want)
        }
    }
}

/// Adds a line with a caret under a place on it.
#[tactic(auto, using(texts::proofs::Writes::joining), unfolding(crate::specs::Sayings::shown_text))]
fn add_line<W: Out>(
    text: &mut TextBuffer<'_, W>,
    line: u64,
    bytes: &[u8],
    place: usize,
) -> Result<(), WriteError>
    requires { place ≤ length bytes.now }
    ensures { Adds W.sink text.old text.new result (shown_text line bytes.now place) }
{
    let before = before(bytes, place);
    add_at(text, line, place as u64 + 1)?;
    add_bar(text, line)?;
    add_quote(text, line, before, behind(bytes, place))?;
    add_caret(text, line, before)
}

/// Adds a fault or note, with its place in this line, which is shown with this number.
#[tactic(auto, using(texts::proofs::Writes::joining), unfolding(crate::specs::Sayings::numbered_text))]
fn add_numbered<W: Out>(
    text: &mut TextBuffer<'_, W>,
    line: &[u8],
    number: u64,
    finding: &Finding,
) -> Result<(), WriteError>
    ensures { Adds W.sink text.old text.new result (numbered_text line.now number finding.now) }
{
    let place = finding.place.min(line.len());
    add_head(text, finding.what)?;
    add_line(text, number, line, place)?;
    add_want(text, number, finding.want)
}

/// Adds a fault or note, with its place in this line.
fn add_finding<W: Out>(
    text: &mut TextBuffer<'_, W>,
    line: &[u8],
    finding: &Finding,
) -> Result<(), WriteError>
    ensures { Adds W.sink text.old text.new result (finding_text line.now finding.now) }
{
    add_numbered(text, line, finding.line, finding)
}

#[tactic(auto, unfolding(crate::specs::Sayings::sent_text))]
fn add_sent<W: Out>(text: &mut TextBuffer<'_, W>, line: u64) -> Result<(), WriteError>
    ensures { Adds W.sink text.old text.new result (sent_text line) }
{
    add_pieces(
        text,
        &[
            Piece::Bytes(b" = the message is sent later, in line "),
            Piece::Number(line),
            Piece::Bytes(b"\n"),
        ],
    )
}

/// If the message for a note is sent later, adds the line that says so.
#[tactic(auto, using(texts::proofs::Writes::joining), unfolding(crate::specs::Sayings::later_text))]
fn add_later<W: Out>(
    text: &mut TextBuffer<'_, W>,
    line: u64,
    later: Option<u64>,
) -> Result<(), WriteError>
    ensures { Adds W.sink text.old text.new result (later_text line later) }
{
    match later {
        None => text.add(b""),
        Some(later) => {
            add_margin(text, line)?;
            add_sent(text, later)
        }
    }
}

/// Adds a note of this line.
#[tactic(auto, using(texts::proofs::Writes::joining), unfolding(crate::specs::Sayings::noted_text))]
fn add_noted<W: Out>(
    text: &mut TextBuffer<'_, W>,
    line: &[u8],
    noted: &Noted,
) -> Result<(), WriteError>
    ensures { Adds W.sink text.old text.new result (noted_text line.now noted.now) }
{
    add_finding(text, line, &note_finding(noted.note))?;
    add_later(text, noted.note.line, noted.later)
}

/// Adds a part of the explanation. `line` is the line of the file that is shown with it, if one is.
#[tactic(auto, unfolding(crate::specs::Sayings::text_by_line, crate::specs::Sayings::read_text))]
fn add_saying<W: Out>(
    text: &mut TextBuffer<'_, W>,
    line: &[u8],
    saying: &Saying,
) -> Result<(), WriteError>
    ensures { Adds W.sink text.old text.new result (text_by_line line.now saying.now) }
{
    match saying {
        Saying::Kind(kind) => text.add(kind_words(*kind)),
        Saying::Read => text.add(b"nothing is wrong with it\n"),
        Saying::Undone(count) => add_undone(text, *count),
        Saying::Finding(finding) => add_finding(text, line, finding),
        Saying::Typed(finding, number) => add_numbered(text, line, *number, finding),
        Saying::Note(noted) => add_noted(text, line, noted),
        Saying::LeftOut(left_out) => add_left_out(text, left_out),
        Saying::Overtaking(message) => add_overtaking(text, message),
        Saying::Cyclic => text.add(cyclic_words()),
        Saying::Step(step) => add_step(text, step),
        Saying::Tidy => text.add(tidy_words()),
        Saying::Log => text.add(log_words()),
    }
}

/// The number of the line that is shown with a part. It is 1 if no line is shown.
fn shown_line(saying: &Saying) -> u64
    ensures { result ≡ shown_line saying.now }
{
    match saying {
        Saying::Finding(finding) | Saying::Typed(finding, _) => finding.line,
        Saying::Note(noted) => noted.note.line,
        Saying::Kind(_)
        | Saying::Read
        | Saying::Undone(_)
        | Saying::LeftOut(_)
        | Saying::Overtaking(_)
        | Saying::Cyclic
        | Saying::Step(_)
        | Saying::Tidy
        | Saying::Log => 1,
    }
}

fn add_sayings<W: Out>(
    text: &mut TextBuffer<'_, W>,
    file: &[u8],
    sayings: &[Saying],
) -> Result<(), WriteError>
    ensures { Adds W.sink text.old text.new result (flat_map (saying_text file.now) sayings.now) }
{
    let mut rest = file;
    let mut line = 1;
    for saying in sayings {
        let wanted = shown_line(saying);
        rest = text_from(file, rest, line, wanted);
        line = wanted;
        add_saying(text, line_from(rest), saying)?;
    }
    Ok(())
}

/// Writes the explanation of a file with these bytes.
#[tactic(auto, using(texts::proofs::Writes::joining))]
pub(crate) fn write_sayings<W: Out>(
    file: &[u8],
    sayings: &[Saying],
    out: &mut W,
) -> Result<(), WriteError>
    ensures { Wrote W.sink out.old out.new result (flat_map (saying_text file.now) sayings.now) }
{
    let mut text = TextBuffer::new(out);
    add_sayings(&mut text, file, sayings)?;
    text.finish()
}
