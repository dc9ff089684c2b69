//! Excerpts of texts: the lines round two events.
ghost use Rattle.std.specs.Prelude.{◌≡◌};
ghost use Rattle.texts.specs.Lines.{lines_of};
ghost use Rattle.texts.specs.Writing.{Adds};
ghost use Rattle.texts.specs.Pieces.Pieces.{escaped};
ghost use Rattle.cmd_page.specs.Text.Excerpts.{is_near, is_shown, start_of, end_of, line_text, gap_text, next_text, excerpt_text};

use crate::text::word::{Word, add_word};
use texts::pieces::{Piece, add_pieces};
use texts::{Out, TextBuffer, WriteError, next_line};

/// A text, and the lines of it that are shown: the first ones, and those round two others. Lines are numbered from 1.
/// The number 0 is no line.
#[derive(Drop)]
pub struct Excerpt {
    pub text: Vec<u8>,
    pub head: u64,
    /// The line of the earlier event.
    pub earlier: u64,
    /// The line of the receive.
    pub receive: u64,
}

/// Whether a line is one of the twelve round another one.
fn is_near(line: u64, other: u64) -> bool
    ensures { result ≡ is_near line other }
{
    line.saturating_sub(6) <= other && other.saturating_sub(5) <= line
}

/// Whether a line is shown.
fn is_shown(excerpt: &Excerpt, line: u64) -> bool
    ensures { result ≡ is_shown excerpt.now line }
{
    line <= excerpt.head || is_near(line, excerpt.earlier) || is_near(line, excerpt.receive)
}

/// The markup before a line.
fn start_of(excerpt: &Excerpt, line: u64) -> Word
    ensures { result ≡ start_of excerpt.now line }
{
    if line == excerpt.receive {
        Word::ReceiveStart
    } else if line == excerpt.earlier {
        Word::EarlierStart
    } else {
        Word::LineStart
    }
}

/// The markup after a line.
fn end_of(excerpt: &Excerpt, line: u64) -> Word
    ensures { result ≡ end_of excerpt.now line }
{
    if line == excerpt.receive || line == excerpt.earlier {
        Word::EventEnd
    } else {
        Word::LineEnd
    }
}

/// Adds any bytes.
pub(crate) fn add_escaped<W: Out>(
    text: &mut TextBuffer<'_, W>,
    bytes: &[u8],
) -> Result<(), WriteError>
    ensures { Adds W.sink text.old text.new result (escaped bytes.now) }
{
    add_pieces(text, &[Piece::Escaped(bytes)])
}

/// Adds a line that is shown.
#[tactic(auto, using(texts::proofs::Writes::joining), unfolding(crate::specs::Text::Excerpts::line_text))]
fn add_line<W: Out>(
    text: &mut TextBuffer<'_, W>,
    excerpt: &Excerpt,
    number: u64,
    line: &[u8],
) -> Result<(), WriteError>
    ensures { Adds W.sink text.old text.new result (line_text excerpt.now number line.now) }
{
    add_word(text, start_of(excerpt, number))?;
    add_escaped(text, line)?;
    add_word(text, end_of(excerpt, number))
}

/// Adds the mark of lines that aren't shown, unless it was the last text.
fn add_gap<W: Out>(text: &mut TextBuffer<'_, W>, follows_gap: bool) -> Result<(), WriteError>
    ensures { Adds W.sink text.old text.new result (gap_text follows_gap) }
{
    if follows_gap {
        text.add(b"")
    } else {
        add_word(text, Word::Gap)
    }
}

/// Adds a line, or the mark of lines that aren't shown.
fn add_next<W: Out>(
    text: &mut TextBuffer<'_, W>,
    excerpt: &Excerpt,
    number: u64,
    follows_gap: bool,
    line: &[u8],
) -> Result<(), WriteError>
    ensures { Adds W.sink text.old text.new result (next_text excerpt.now number follows_gap line.now) }
{
    if is_shown(excerpt, number) {
        add_line(text, excerpt, number, line)
    } else {
        add_gap(text, follows_gap)
    }
}

/// Adds the lines that are shown.
pub(crate) fn add_excerpt<W: Out>(
    text: &mut TextBuffer<'_, W>,
    excerpt: &Excerpt,
) -> Result<(), WriteError>
    ensures { Adds W.sink text.old text.new result (excerpt_text excerpt.now) }
{
    let mut rest = excerpt.text.as_slice();
    let mut number = 1u64;
    let mut follows_gap = false;
    'lines: while let Some((line, others)) = next_line(rest) {
        add_next(text, excerpt, number, follows_gap, line)?;
        follows_gap = !is_shown(excerpt, number);
        number = number.saturating_add(1);
        rest = others;
    }
    Ok(())
}
