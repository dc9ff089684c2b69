//! Names of instances and labels of messages, in one line or two.
ghost use Rattle.std.specs.Prelude.{◌≡◌, ◌≤◌, length};
ghost use Rattle.texts.specs.Writing.{Adds};
ghost use Rattle.picture_parts.specs.Elements.Elements.{full_line, name_line, above, name_lines, tall, corner};
ghost use Rattle.picture_parts.specs.Elements.Elements.{base, label};

use crate::columns::{line_break, name_width};
use crate::elements::elements::add_ground;
use crate::elements::spot::Spot;
use texts::pieces::{Piece, add_pieces};
use texts::{Out, TextBuffer, WriteError};

/// Adds a line of a name, with its middle at the spot.
#[tactic(auto, unfolding(crate::specs::Elements::Elements::full_line))]
fn add_full_line<W: Out>(
    text: &mut TextBuffer<'_, W>,
    at: Spot,
    line: &[u8],
) -> Result<(), WriteError>
    ensures { Adds W.sink text.old text.new result (full_line at line.now) }
{
    add_pieces(
        text,
        &[
            Piece::Bytes(b"<text x='"),
            Piece::Number(at.x),
            Piece::Bytes(b"' y='"),
            Piece::Number(at.y),
            Piece::Bytes(b"'>"),
            Piece::Bytes(line),
            Piece::Bytes(b"</text>\n"),
        ],
    )
}

/// Adds a line of a name, or nothing if the line is empty.
fn add_name_line<W: Out>(
    text: &mut TextBuffer<'_, W>,
    at: Spot,
    line: &[u8],
) -> Result<(), WriteError>
    ensures { Adds W.sink text.old text.new result (name_line at line.now) }
{
    if line.is_empty() {
        text.add(b"")
    } else {
        add_full_line(text, at, line)
    }
}

/// The place of a name's upper line, if the lower one is at the spot.
fn above(at: Spot) -> Spot
    ensures { result ≡ above at }
{
    Spot {
        x: at.x,
        y: at.y.saturating_sub(10),
    }
}

/// Adds both lines of a name, with the middle of the lower one at the spot.
#[tactic(auto, using(texts::proofs::Writes::joining), unfolding(crate::specs::Elements::Elements::name_lines))]
pub fn add_name_lines<W: Out>(
    text: &mut TextBuffer<'_, W>,
    upper: usize,
    name: &[u8],
    at: Spot,
) -> Result<(), WriteError>
    requires { upper ≤ length name.now }
    ensures { Adds W.sink text.old text.new result (name_lines upper name.now at) }
{
    let (first, second) = name.split_at(upper);
    add_name_line(text, above(at), first)?;
    add_name_line(text, at, second)
}

/// The height of a label's background, if its upper line has this number of bytes.
fn tall(upper: usize) -> u64
    ensures value { result ≡ tall upper }
    ensures limit { result ≤ 20 }
{
    if upper == 0 { 10 } else { 20 }
}

/// The upper left corner of the background of a label above an arrow.
fn corner(x: u64, y: u64, upper: usize, width: u64) -> Spot
    ensures { result ≡ corner x y upper width }
{
    Spot {
        x: x.saturating_sub(width / 2),
        y: y.saturating_sub(tall(upper) + 2),
    }
}

/// The place of the lower line of such a label.
fn base(x: u64, y: u64) -> Spot
    ensures { result ≡ base x y }
{
    Spot {
        x,
        y: y.saturating_sub(4),
    }
}

/// Adds a label above an arrow at this height, on its background.
#[tactic(auto, using(texts::proofs::Writes::joining), unfolding(crate::specs::Elements::Elements::label))]
pub fn add_label<W: Out>(
    text: &mut TextBuffer<'_, W>,
    near: bool,
    name: &[u8],
    x: u64,
    y: u64,
) -> Result<(), WriteError>
    ensures { Adds W.sink text.old text.new result (label near name.now x y) }
{
    let upper = line_break(name, near);
    let width = u64::from(name_width(name, near));
    add_ground(text, corner(x, y, upper, width), width, tall(upper))?;
    add_name_lines(text, upper, name, base(x, y))
}
