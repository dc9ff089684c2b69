//! The pieces of which a text is built.
ghost use Rattle.std.specs.Prelude.{◌≡◌};
ghost use Rattle.std.specs.List.{flat_map};
ghost use Rattle.texts.specs.Writing.{Adds};
ghost use Rattle.texts.specs.Pieces.Pieces.{piece_text, escaped_byte, escaped};

use crate::{Out, TextBuffer, WriteError};

/// A piece of a text.
#[derive(Clone, Copy)]
pub enum Piece<'a> {
    /// Bytes, unchanged.
    Bytes(&'a [u8]),
    /// A number, in decimal.
    Number(u64),
    /// Arbitrary bytes, escaped for an SVG text.
    Escaped(&'a [u8]),
}

fn add_piece<W: Out>(text: &mut TextBuffer<'_, W>, piece: &Piece<'_>) -> Result<(), WriteError>
    ensures { Adds W.sink text.old text.new result (piece_text piece.now) }
{
    match piece {
        Piece::Bytes(bytes) => text.add(bytes),
        Piece::Number(number) => text.add_number(*number),
        Piece::Escaped(bytes) => add_escaped(text, bytes),
    }
}

/// Adds the pieces to the text, in order. F24: a put failed.
pub fn add_pieces<W: Out>(
    text: &mut TextBuffer<'_, W>,
    pieces: &[Piece<'_>],
) -> Result<(), WriteError>
    ensures { Adds W.sink text.old text.new result (flat_map piece_text pieces.now) }
{
    for piece in pieces {
        add_piece(text, piece)?;
    }
    Ok(())
}

/// Adds a byte, escaped for an SVG text.
fn add_escaped_byte<W: Out>(text: &mut TextBuffer<'_, W>, byte: u8) -> Result<(), WriteError>
    ensures { Adds W.sink text.old text.new result (escaped_byte byte) }
{
    match byte {
        b'&' => text.add(b"&amp;"),
        b'<' => text.add(b"&lt;"),
        b'>' => text.add(b"&gt;"),
        b'"' => text.add(b"&quot;"),
        b'\'' => text.add(b"&#39;"),
        b' '..=b'~' => text.add(&[byte]),
        _ => text.add(b"?"),
    }
}

/// Adds arbitrary bytes, escaped for an SVG text.
fn add_escaped<W: Out>(text: &mut TextBuffer<'_, W>, bytes: &[u8]) -> Result<(), WriteError>
    ensures { Adds W.sink text.old text.new result (escaped bytes.now) }
{
    for byte in bytes {
        add_escaped_byte(text, *byte)?;
    }
    Ok(())
}
