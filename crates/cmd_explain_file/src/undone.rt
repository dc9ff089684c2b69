//! The line that reports that a schedule's text is read, and how many of its commands did nothing.
ghost use Rattle.cmd_explain_file.specs.Sayings.{one_undone_text, several_undone_text, undone_text};
ghost use Rattle.texts.specs.Writing.{Adds};

use texts::pieces::{Piece, add_pieces};
use texts::{Out, TextBuffer, WriteError};

/// Adds that one command did nothing.
#[tactic(auto, unfolding(crate::specs::Sayings::one_undone_text))]
fn add_one<W: Out>(text: &mut TextBuffer<'_, W>) -> Result<(), WriteError>
    ensures { Adds W.sink text.old text.new result one_undone_text }
{
    text.add(b"the text is read, and 1 command did nothing\n")
}

/// Adds that several commands did nothing.
#[tactic(auto, unfolding(crate::specs::Sayings::several_undone_text))]
fn add_several<W: Out>(text: &mut TextBuffer<'_, W>, count: u64) -> Result<(), WriteError>
    ensures { Adds W.sink text.old text.new result (several_undone_text count) }
{
    add_pieces(
        text,
        &[
            Piece::Bytes(b"the text is read, and "),
            Piece::Number(count),
            Piece::Bytes(b" commands did nothing\n"),
        ],
    )
}

/// Adds how many commands did nothing.
#[tactic(auto, unfolding(crate::specs::Sayings::undone_text))]
pub(crate) fn add_undone<W: Out>(text: &mut TextBuffer<'_, W>, count: u64) -> Result<(), WriteError>
    ensures { Adds W.sink text.old text.new result (undone_text count) }
{
    if count == 1 {
        add_one(text)
    } else {
        add_several(text, count)
    }
}
