//! The lines of a log's refusals.
ghost use Rattle.std.specs.Prelude.{◌≡◌, map};
ghost use Rattle.texts.specs.Writing.{Wrote, Adds};
ghost use Rattle.cmd_base.specs.Refusals.{Tried};
ghost use Rattle.cmd_import_log.specs.Refusals.{full_text, place_text, bad_pattern_text, no_log_line, no_log_text, no_receive_line, one_end_line};
ghost use Rattle.cmd_import_log.specs.Refusals.{one_send_text, several_sends_text, sends_text, no_receive_text, one_end_text, log_refusal_text};

use crate::answers::{
    Diagnostics, add_all_alike, add_all_lined, add_all_lineless, add_one_ended_note,
};
use crate::error::LogImportError;
use chart::Name;
use cmd_base::refused_by;
use log_formats::patterns::Fault;
use log_lines::Others;
use log_text::{UnreadLine, add_fault, add_others_of, add_unread};
use texts::pieces::{Piece, add_pieces};
use texts::{Out, TextBuffer, WriteError};

/// Adds the line of F7.
#[tactic(auto, unfolding(crate::specs::Refusals::full_text))]
fn add_full<V: Out>(text: &mut TextBuffer<'_, V>, name: &[u8]) -> Result<(), WriteError>
    ensures { Adds V.sink text.old text.new result (full_text name.now) }
{
    add_pieces(
        text,
        &[
            Piece::Bytes(b"refused: F7 LineFull "),
            Piece::Bytes(name),
            Piece::Bytes(b"\n"),
        ],
    )
}

#[tactic(auto, using(texts::proofs::Writes::joining))]
fn write_full<V: Out>(name: &[u8], err: &mut V) -> Result<(), WriteError>
    ensures { Wrote V.sink err.old err.new result (full_text name.now) }
{
    let mut text = TextBuffer::new(err);
    add_full(&mut text, name)?;
    text.finish()
}

/// Prints the line of F7, and returns the exit status.
fn refused_full<V: Out>(name: &Name, err: &mut V) -> u8
    ensures status { result ≡ 2 }
    ensures line { Tried V.sink err.old err.new (full_text name.now) }
{
    let _ = write_full(name.as_bytes(), err);
    2
}

/// Adds the line of F39.
#[tactic(auto, unfolding(crate::specs::Refusals::place_text))]
fn add_place<V: Out>(text: &mut TextBuffer<'_, V>, place: usize) -> Result<(), WriteError>
    ensures { Adds V.sink text.old text.new result (place_text place) }
{
    add_pieces(
        text,
        &[
            Piece::Bytes(b"refused: F39 BadPattern "),
            Piece::Number(place as u64),
            Piece::Bytes(b"\n"),
        ],
    )
}

/// Adds the line of F39, and the line about the expression's fault.
#[tactic(auto, using(texts::proofs::Writes::joining), unfolding(crate::specs::Refusals::bad_pattern_text))]
fn add_pattern<V: Out>(
    text: &mut TextBuffer<'_, V>,
    place: usize,
    fault: Fault,
) -> Result<(), WriteError>
    ensures { Adds V.sink text.old text.new result (bad_pattern_text place fault) }
{
    add_place(text, place)?;
    add_fault(text, fault)
}

#[tactic(auto, using(texts::proofs::Writes::joining))]
fn write_pattern<V: Out>(place: usize, fault: Fault, err: &mut V) -> Result<(), WriteError>
    ensures { Wrote V.sink err.old err.new result (bad_pattern_text place fault) }
{
    let mut text = TextBuffer::new(err);
    add_pattern(&mut text, place, fault)?;
    text.finish()
}

/// Prints the line of F39 and the line about the expression's fault, and returns the exit status.
fn refused_pattern<V: Out>(place: usize, fault: Fault, err: &mut V) -> u8
    ensures status { result ≡ 2 }
    ensures line { Tried V.sink err.old err.new (bad_pattern_text place fault) }
{
    let _ = write_pattern(place, fault, err);
    2
}

#[tactic(auto, unfolding(crate::specs::Refusals::no_log_line))]
fn add_no_log_line<V: Out>(text: &mut TextBuffer<'_, V>) -> Result<(), WriteError>
    ensures { Adds V.sink text.old text.new result no_log_line }
{
    text.add(b"refused: F38 NotALog\n")
}

/// Adds the line of F38, the line about lines that don't match, and the one about a match that isn't read.
#[tactic(auto, using(texts::proofs::Writes::joining), unfolding(crate::specs::Refusals::no_log_text))]
fn add_no_log<V: Out>(
    text: &mut TextBuffer<'_, V>,
    files: &[&[u8]],
    lines: u64,
    others: Option<Others>,
    unread: &Option<UnreadLine>,
) -> Result<(), WriteError>
    ensures { Adds V.sink text.old text.new result (no_log_text (map (λ file. file.now) files.now) lines others unread.now) }
{
    add_no_log_line(text)?;
    add_others_of(
        text,
        files,
        lines,
        b"lines doesn't match",
        b"lines don't match",
        others,
    )?;
    add_unread(text, files, unread)
}

#[tactic(auto, using(texts::proofs::Writes::joining))]
fn write_no_log<V: Out>(
    files: &[&[u8]],
    lines: u64,
    others: Option<Others>,
    unread: &Option<UnreadLine>,
    err: &mut V,
) -> Result<(), WriteError>
    ensures { Wrote V.sink err.old err.new result (no_log_text (map (λ file. file.now) files.now) lines others unread.now) }
{
    let mut text = TextBuffer::new(err);
    add_no_log(&mut text, files, lines, others, unread)?;
    text.finish()
}

/// Prints the line of F38 and the lines about those that don't match, and returns the exit status.
fn refused_no_log<V: Out>(
    files: &[&[u8]],
    lines: u64,
    others: Option<Others>,
    unread: &Option<UnreadLine>,
    err: &mut V,
) -> u8
    ensures status { result ≡ 2 }
    ensures line { Tried V.sink err.old err.new (no_log_text (map (λ file. file.now) files.now) lines others unread.now) }
{
    let _ = write_no_log(files, lines, others, unread, err);
    2
}

#[tactic(auto, unfolding(crate::specs::Refusals::one_send_text))]
fn add_one_send<V: Out>(text: &mut TextBuffer<'_, V>) -> Result<(), WriteError>
    ensures { Adds V.sink text.old text.new result one_send_text }
{
    text.add(b"1 line matches, and it isn't a receive\n")
}

#[tactic(auto, unfolding(crate::specs::Refusals::several_sends_text))]
fn add_several_sends<V: Out>(text: &mut TextBuffer<'_, V>, sends: u64) -> Result<(), WriteError>
    ensures { Adds V.sink text.old text.new result (several_sends_text sends) }
{
    add_pieces(
        text,
        &[
            Piece::Number(sends),
            Piece::Bytes(b" lines match, and none is a receive\n"),
        ],
    )
}

/// Adds the number of lines with messages, none of which is a receive.
fn add_sends<V: Out>(text: &mut TextBuffer<'_, V>, sends: u64) -> Result<(), WriteError>
    ensures { Adds V.sink text.old text.new result (sends_text sends) }
{
    if sends == 1 {
        add_one_send(text)
    } else {
        add_several_sends(text, sends)
    }
}

#[tactic(auto, unfolding(crate::specs::Refusals::no_receive_line))]
fn add_no_receive_line<V: Out>(text: &mut TextBuffer<'_, V>) -> Result<(), WriteError>
    ensures { Adds V.sink text.old text.new result no_receive_line }
{
    text.add(b"refused: F51 NoReceive\n")
}

/// Adds the line of F51, the number of lines that match, the line about those that don't, and the one about a match
/// that isn't read.
#[tactic(auto, using(texts::proofs::Writes::joining), unfolding(crate::specs::Refusals::no_receive_text))]
fn add_no_receive<V: Out>(
    text: &mut TextBuffer<'_, V>,
    files: &[&[u8]],
    sends: u64,
    lines: u64,
    others: Option<Others>,
    unread: &Option<UnreadLine>,
) -> Result<(), WriteError>
    ensures { Adds V.sink text.old text.new result (no_receive_text (map (λ file. file.now) files.now) sends lines others unread.now) }
{
    add_no_receive_line(text)?;
    add_sends(text, sends)?;
    add_others_of(
        text,
        files,
        lines,
        b"lines doesn't match",
        b"lines don't match",
        others,
    )?;
    add_unread(text, files, unread)
}

#[tactic(auto, using(texts::proofs::Writes::joining))]
fn write_no_receive<V: Out>(
    files: &[&[u8]],
    sends: u64,
    lines: u64,
    others: Option<Others>,
    unread: &Option<UnreadLine>,
    err: &mut V,
) -> Result<(), WriteError>
    ensures { Wrote V.sink err.old err.new result (no_receive_text (map (λ file. file.now) files.now) sends lines others unread.now) }
{
    let mut text = TextBuffer::new(err);
    add_no_receive(&mut text, files, sends, lines, others, unread)?;
    text.finish()
}

/// Prints the line of F51, the number of lines that match and the lines about those that don't. Returns the exit
/// status.
fn refused_no_receive<V: Out>(
    files: &[&[u8]],
    sends: u64,
    lines: u64,
    others: Option<Others>,
    unread: &Option<UnreadLine>,
    err: &mut V,
) -> u8
    ensures status { result ≡ 2 }
    ensures line { Tried V.sink err.old err.new (no_receive_text (map (λ file. file.now) files.now) sends lines others unread.now) }
{
    let _ = write_no_receive(files, sends, lines, others, unread, err);
    2
}

#[tactic(auto, unfolding(crate::specs::Refusals::one_end_line))]
fn add_one_end_line<V: Out>(text: &mut TextBuffer<'_, V>) -> Result<(), WriteError>
    ensures { Adds V.sink text.old text.new result one_end_line }
{
    text.add(b"refused: F52 OneEnd\n")
}

/// Adds the line of F52 and why, and the hosts of the log: those with lines of their own, those without, and those that
/// it may call by two words.
#[tactic(auto, using(texts::proofs::Writes::joining), unfolding(crate::specs::Refusals::one_end_text))]
fn add_one_end<V: Out>(
    text: &mut TextBuffer<'_, V>,
    diagnostics: &Diagnostics,
) -> Result<(), WriteError>
    ensures { Adds V.sink text.old text.new result (one_end_text diagnostics.now) }
{
    add_one_end_line(text)?;
    add_one_ended_note(text)?;
    add_all_lined(text, &diagnostics.lined)?;
    add_all_lineless(text, &diagnostics.lineless)?;
    add_all_alike(text, &diagnostics.alike)
}

#[tactic(auto, using(texts::proofs::Writes::joining))]
fn write_one_end<V: Out>(diagnostics: &Diagnostics, err: &mut V) -> Result<(), WriteError>
    ensures { Wrote V.sink err.old err.new result (one_end_text diagnostics.now) }
{
    let mut text = TextBuffer::new(err);
    add_one_end(&mut text, diagnostics)?;
    text.finish()
}

/// Prints the line of F52 and why: if a log has one end of each message, no race is claimed. The hosts follow, those
/// with lines of their own and those without, and those that the log may call by two words. Returns the exit status,
/// which is 2 whether or not all of it could be written.
pub fn refused_one_end<V: Out>(diagnostics: &Diagnostics, err: &mut V) -> u8
    ensures status { result ≡ 2 }
    ensures line { Tried V.sink err.old err.new (one_end_text diagnostics.now) }
{
    let _ = write_one_end(diagnostics, err);
    2
}

/// Prints the line of a log's refusal. After F38 and F51 a further line counts those that don't match, and another one
/// reports the first match of the expression that isn't read. After F39 a further line reports the fault. `files` has
/// the names of several files, and is empty for one. Returns the exit status, which is 2 whether or not this could be
/// written.
pub fn refused_log<V: Out>(files: &[&[u8]], error: &LogImportError, err: &mut V) -> u8
    ensures status { result ≡ 2 }
    ensures line { Tried V.sink err.old err.new (log_refusal_text (map (λ file. file.now) files.now) error.now) }
{
    match error {
        LogImportError::Memory => refused_by(b"F6 Memory", None, err),
        LogImportError::BadPattern(place, fault) => refused_pattern(*place, *fault, err),
        LogImportError::NotALog(lines, others, unread) => {
            refused_no_log(files, *lines, *others, unread, err)
        }
        LogImportError::NoReceive(sends, lines, others, unread) => {
            refused_no_receive(files, *sends, *lines, *others, unread, err)
        }
        LogImportError::Instances => refused_by(b"F8 Instances", None, err),
        LogImportError::ToItself(place) => refused_by(b"F13 ToItself", Some(place.line), err),
        LogImportError::LineFull(name) => refused_full(name, err),
    }
}
