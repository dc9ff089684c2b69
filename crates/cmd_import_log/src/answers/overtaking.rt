//! Messages that overtake.
ghost use Rattle.texts.specs.Writing.{Adds};
ghost use Rattle.cmd_import_log.specs.Answers.Diagnostics.{one_overtakes_note, several_overtake_note, overtakings_text};

use log_lines::Place;
use texts::pieces::{Piece, add_pieces};
use texts::{Out, TextBuffer, WriteError};

/// A message that overtakes another one of its lane: the lines of both sends.
#[derive(Clone, Copy, Debug, PartialEq, Eq)]
pub struct Overtaking {
    pub line: Place,
    pub overtaken: Place,
}

#[tactic(auto, unfolding(crate::specs::Answers::Diagnostics::one_overtakes_note))]
fn add_one_overtakes<V: Out>(text: &mut TextBuffer<'_, V>) -> Result<(), WriteError>
    ensures { Adds V.sink text.old text.new result one_overtakes_note }
{
    text.add(
        b"1 message overtakes another: it is skipped, and the message that it overtakes stays\n",
    )
}

#[tactic(auto, unfolding(crate::specs::Answers::Diagnostics::several_overtake_note))]
fn add_several_overtake<V: Out>(text: &mut TextBuffer<'_, V>, count: u64) -> Result<(), WriteError>
    ensures { Adds V.sink text.old text.new result (several_overtake_note count) }
{
    add_pieces(
        text,
        &[
            Piece::Number(count),
            Piece::Bytes(
                b" messages overtake others: each is skipped, and the first message that it overtakes stays\n",
            ),
        ],
    )
}

/// Adds the number of messages that overtake, if there are some, and which of two messages is skipped.
pub(crate) fn add_overtakings<V: Out>(
    text: &mut TextBuffer<'_, V>,
    count: u64,
) -> Result<(), WriteError>
    ensures { Adds V.sink text.old text.new result (overtakings_text count) }
{
    if count == 0 {
        Ok(())
    } else if count == 1 {
        add_one_overtakes(text)
    } else {
        add_several_overtake(text, count)
    }
}
