//! The report of dropped comments.
ghost use Rattle.std.specs.Prelude.{◌≡◌, ◌∷◌, length};
ghost use Rattle.texts.specs.Writing.{Wrote, Adds};
ghost use Rattle.cmd_tidy.specs.Tidying.{one_text, several_text, comments_exit};

use cmd_base::Answer;
use texts::pieces::{Piece, add_pieces};
use texts::{Out, TextBuffer, WriteError};

/// The lines whose comments are dropped, by their numbers from 1.
#[derive(Drop)]
pub(crate) struct Comments {
    pub(crate) lines: Vec<u64>,
}

/// Adds the report of one dropped comment.
#[tactic(auto, unfolding(crate::specs::Tidying::one_text))]
fn add_one<V: Out>(text: &mut TextBuffer<'_, V>, line: u64) -> Result<(), WriteError>
    ensures { Adds V.sink text.old text.new result (one_text line) }
{
    add_pieces(
        text,
        &[
            Piece::Bytes(b"1 comment is left out, in line "),
            Piece::Number(line),
            Piece::Bytes(b"\n"),
        ],
    )
}

/// Adds the report of several dropped comments.
#[tactic(auto, unfolding(crate::specs::Tidying::several_text))]
fn add_several<V: Out>(
    text: &mut TextBuffer<'_, V>,
    count: u64,
    line: u64,
) -> Result<(), WriteError>
    ensures { Adds V.sink text.old text.new result (several_text count line) }
{
    add_pieces(
        text,
        &[
            Piece::Number(count),
            Piece::Bytes(b" comments are left out, the first in line "),
            Piece::Number(line),
            Piece::Bytes(b"\n"),
        ],
    )
}

#[tactic(auto, using(texts::proofs::Writes::joining))]
fn write_one<V: Out>(line: u64, err: &mut V) -> Result<(), WriteError>
    ensures { Wrote V.sink err.old err.new result (one_text line) }
{
    let mut text = TextBuffer::new(err);
    add_one(&mut text, line)?;
    text.finish()
}

#[tactic(auto, using(texts::proofs::Writes::joining))]
fn write_several<V: Out>(count: u64, line: u64, err: &mut V) -> Result<(), WriteError>
    ensures { Wrote V.sink err.old err.new result (several_text count line) }
{
    let mut text = TextBuffer::new(err);
    add_several(&mut text, count, line)?;
    text.finish()
}

/// The report of dropped comments: their number, and the line of the first.
impl Answer for Comments {
    ghost exit = { comments_exit };

    fn status(&self) -> u8 {
        0
    }

    fn print_diagnostics<V: Out>(&self, err: &mut V) {
        match self.lines.as_slice() {
            [] => {}
            [line] => {
                let _ = write_one(*line, err);
            }
            [line, ..] => {
                let _ = write_several(self.lines.len() as u64, *line, err);
            }
        }
    }
}
