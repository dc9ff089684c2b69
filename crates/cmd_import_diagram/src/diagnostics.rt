//! The warnings about a chart.
ghost use Rattle.std.specs.Prelude.{◌≡◌};
ghost use Rattle.std.specs.List.{flat_map};
ghost use Rattle.texts.specs.Writing.{Wrote, Adds};
ghost use Rattle.cmd_import_diagram.specs.Diagnostics.{one_line, several_line, left_out_line, overtaking_line};
ghost use Rattle.diagram_labels.specs.Renamed.Reporting.{is};
ghost use Rattle.cmd_import_diagram.specs.Diagnostics.{diagnostics_text};

use crate::kind_words::{kind_reading, kind_word, kind_words};
use diagram_join::Overtaking;
use diagram_labels::Renamed;
use diagram_labels::renamed::add_all_renamed;
use diagrams::LeftOut;
use texts::pieces::{Piece, add_pieces};
use texts::{Out, TextBuffer, WriteError};

/// Adds the warning about one skipped construct, with its line and the way in which it is read.
#[tactic(auto, unfolding(crate::specs::Diagnostics::one_line))]
fn add_one<'x, V: Out>(
    text: &mut TextBuffer<'_, V>,
    word: &'x [u8],
    line: u64,
    reading: &'x [u8],
) -> Result<(), WriteError>
    ensures { Adds V.sink text.old text.new result (one_line word.now line reading.now) }
{
    add_pieces(
        text,
        &[
            Piece::Bytes(b"1 "),
            Piece::Bytes(word),
            Piece::Bytes(b" is left out, in line "),
            Piece::Number(line),
            Piece::Bytes(reading),
            Piece::Bytes(b"\n"),
        ],
    )
}

/// Adds the warning about several of them, with the line of the first.
#[tactic(auto, unfolding(crate::specs::Diagnostics::several_line))]
fn add_several<'x, V: Out>(
    text: &mut TextBuffer<'_, V>,
    count: u64,
    words: &'x [u8],
    line: u64,
    reading: &'x [u8],
) -> Result<(), WriteError>
    ensures { Adds V.sink text.old text.new result (several_line count words.now line reading.now) }
{
    add_pieces(
        text,
        &[
            Piece::Number(count),
            Piece::Bytes(b" "),
            Piece::Bytes(words),
            Piece::Bytes(b" are left out, the first in line "),
            Piece::Number(line),
            Piece::Bytes(reading),
            Piece::Bytes(b"\n"),
        ],
    )
}

/// Adds the warning about the skipped constructs of a kind. F24: a put failed.
pub fn add_left_out<V: Out>(
    text: &mut TextBuffer<'_, V>,
    left_out: &LeftOut,
) -> Result<(), WriteError>
    ensures { Adds V.sink text.old text.new result (left_out_line left_out.now) }
{
    let kind = left_out.kind;
    let line = left_out.first.line;
    let reading = kind_reading(kind);
    if left_out.count == 1 {
        add_one(text, kind_word(kind), line, reading)
    } else {
        add_several(text, left_out.count, kind_words(kind), line, reading)
    }
}

fn add_all_left_out<V: Out>(
    text: &mut TextBuffer<'_, V>,
    left_out: &[LeftOut],
) -> Result<(), WriteError>
    ensures { Adds V.sink text.old text.new result (flat_map left_out_line left_out.now) }
{
    for kind in left_out {
        add_left_out(text, kind)?;
    }
    Ok(())
}

/// Adds the warning about a message that overtakes another one. F24: a put failed.
#[tactic(auto, unfolding(crate::specs::Diagnostics::overtaking_line))]
pub fn add_overtaking<V: Out>(
    text: &mut TextBuffer<'_, V>,
    message: &Overtaking,
) -> Result<(), WriteError>
    ensures { Adds V.sink text.old text.new result (overtaking_line message.now) }
{
    add_pieces(
        text,
        &[
            Piece::Bytes(b"the message in line "),
            Piece::Number(message.place.line),
            Piece::Bytes(b" overtakes the one in line "),
            Piece::Number(message.overtaken),
            Piece::Bytes(b", and is left out\n"),
        ],
    )
}

fn add_all_overtaking<V: Out>(
    text: &mut TextBuffer<'_, V>,
    overtaking: &[Overtaking],
) -> Result<(), WriteError>
    ensures { Adds V.sink text.old text.new result (flat_map overtaking_line overtaking.now) }
{
    for message in overtaking {
        add_overtaking(text, message)?;
    }
    Ok(())
}

#[tactic(auto, using(texts::proofs::Writes::joining), unfolding(crate::specs::Diagnostics::diagnostics_text))]
fn add_diagnostics<V: Out>(
    text: &mut TextBuffer<'_, V>,
    left_out: &[LeftOut],
    overtaking: &[Overtaking],
    renamed: &[Renamed],
) -> Result<(), WriteError>
    ensures { Adds V.sink text.old text.new result (diagnostics_text left_out.now overtaking.now renamed.now) }
{
    add_all_left_out(text, left_out)?;
    add_all_overtaking(text, overtaking)?;
    add_all_renamed(text, renamed)
}

/// Writes the warnings about a chart, or about a picture of it. F24: a put failed.
#[tactic(auto, using(texts::proofs::Writes::joining))]
pub fn write_diagnostics<V: Out>(
    left_out: &[LeftOut],
    overtaking: &[Overtaking],
    renamed: &[Renamed],
    err: &mut V,
) -> Result<(), WriteError>
    ensures { Wrote V.sink err.old err.new result (diagnostics_text left_out.now overtaking.now renamed.now) }
{
    let mut text = TextBuffer::new(err);
    add_diagnostics(&mut text, left_out, overtaking, renamed)?;
    text.finish()
}
