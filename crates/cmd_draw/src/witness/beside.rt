//! Two pictures side by side, with two events marked in both.
ghost use Rattle.std.specs.Prelude.{◌≡◌, ◌≤◌};
ghost use Rattle.texts.specs.Writing.{Wrote, Adds};
ghost use Rattle.cmd_draw.specs.Witness.Beside.{ground, corner, square, ring, group_start, square_at, ring_at, spot_from};
ghost use Rattle.cmd_draw.specs.Witness.Beside.{marks, side_text, square_entry, ring_entry, key, beside_text};

use chart::EventNo;
use cmd_base::pairs::Pair;
use picture_parts::elements::{Spot, add_group_end, add_svg_end, add_svg_start, add_title};
use pictures::{Picture, add_picture};
use texts::pieces::{Piece, add_pieces};
use texts::{Out, TextBuffer, WriteError};

/// The events that are marked in a picture: the earlier one, and the receive.
#[derive(Clone, Copy)]
pub(crate) struct Marked {
    pub(crate) earlier: Option<EventNo>,
    pub(crate) receive: Option<EventNo>,
}

/// Adds the colour of the marks, for a light and for a dark scheme, and the background of both pictures.
#[tactic(auto, unfolding(crate::specs::Witness::Beside::ground))]
fn add_ground<W: Out>(text: &mut TextBuffer<'_, W>) -> Result<(), WriteError>
    ensures { Adds W.sink text.old text.new result ground }
{
    add_pieces(
        text,
        &[
            Piece::Bytes(b"<style>.v{stroke:#0050a0;stroke-width:2}"),
            Piece::Bytes(b"@media(prefers-color-scheme:dark){.v{stroke:#9cf}}</style>\n"),
            Piece::Bytes(b"<rect class='g' width='100%' height='100%'/>\n"),
        ],
    )
}

/// The upper left corner of the square around a spot.
fn corner(at: Spot) -> Spot
    ensures { result ≡ corner at }
{
    Spot {
        x: at.x.saturating_sub(8),
        y: at.y.saturating_sub(8),
    }
}

/// Adds the square with this corner.
#[tactic(auto, unfolding(crate::specs::Witness::Beside::square))]
fn add_square<W: Out>(text: &mut TextBuffer<'_, W>, at: Spot) -> Result<(), WriteError>
    ensures { Adds W.sink text.old text.new result (square at) }
{
    add_pieces(
        text,
        &[
            Piece::Bytes(b"<rect class='v' x='"),
            Piece::Number(at.x),
            Piece::Bytes(b"' y='"),
            Piece::Number(at.y),
            Piece::Bytes(b"' width='16' height='16'/>\n"),
        ],
    )
}

/// Adds a ring around a spot.
#[tactic(auto, unfolding(crate::specs::Witness::Beside::ring))]
fn add_ring<W: Out>(text: &mut TextBuffer<'_, W>, at: Spot) -> Result<(), WriteError>
    ensures { Adds W.sink text.old text.new result (ring at) }
{
    add_pieces(
        text,
        &[
            Piece::Bytes(b"<circle class='v' cx='"),
            Piece::Number(at.x),
            Piece::Bytes(b"' cy='"),
            Piece::Number(at.y),
            Piece::Bytes(b"' r='9'/>\n"),
        ],
    )
}

/// Adds the start of a group that is shifted `x` pixels to the right.
#[tactic(auto, unfolding(crate::specs::Witness::Beside::group_start))]
fn add_group_start<W: Out>(text: &mut TextBuffer<'_, W>, x: u64) -> Result<(), WriteError>
    ensures { Adds W.sink text.old text.new result (group_start x) }
{
    add_pieces(
        text,
        &[
            Piece::Bytes(b"<g transform='translate("),
            Piece::Number(x),
            Piece::Bytes(b",0)'>\n"),
        ],
    )
}

/// The spot of an event in a picture, if there is one and it is drawn.
fn spot_from(picture: &Picture<'_>, event: Option<EventNo>) -> Option<Spot>
    ensures { result ≡ spot_from picture.now event }
{
    match event {
        Some(event) => picture.spot_of(&event),
        None => None,
    }
}

fn add_square_at<W: Out>(text: &mut TextBuffer<'_, W>, at: Option<Spot>) -> Result<(), WriteError>
    ensures { Adds W.sink text.old text.new result (square_at at) }
{
    match at {
        Some(at) => add_square(text, corner(at)),
        None => text.add(b""),
    }
}

fn add_ring_at<W: Out>(text: &mut TextBuffer<'_, W>, at: Option<Spot>) -> Result<(), WriteError>
    ensures { Adds W.sink text.old text.new result (ring_at at) }
{
    match at {
        Some(at) => add_ring(text, at),
        None => text.add(b""),
    }
}

/// Adds the marks of both events.
#[tactic(auto, using(texts::proofs::Writes::joining), unfolding(crate::specs::Witness::Beside::marks))]
fn add_marks<W: Out>(
    text: &mut TextBuffer<'_, W>,
    earlier: Option<Spot>,
    receive: Option<Spot>,
) -> Result<(), WriteError>
    ensures { Adds W.sink text.old text.new result (marks earlier receive) }
{
    add_square_at(text, earlier)?;
    add_ring_at(text, receive)
}

/// Adds a picture with its marks, shifted `x` pixels to the right.
#[tactic(auto, using(texts::proofs::Writes::joining), unfolding(crate::specs::Witness::Beside::side_text))]
fn add_side<W: Out>(
    text: &mut TextBuffer<'_, W>,
    x: u64,
    picture: &Picture<'_>,
    earlier: Option<EventNo>,
    receive: Option<EventNo>,
) -> Result<(), WriteError>
    ensures { Adds W.sink text.old text.new result (side_text x picture.now earlier receive) }
{
    add_group_start(text, x)?;
    add_picture(text, picture)?;
    add_marks(
        text,
        spot_from(picture, earlier),
        spot_from(picture, receive),
    )?;
    add_group_end(text)
}

/// Adds the legend of the square, at this height.
#[tactic(auto, unfolding(crate::specs::Witness::Beside::square_entry))]
fn add_square_entry<W: Out>(
    text: &mut TextBuffer<'_, W>,
    y: u64,
    name: &[u8],
    index: u64,
) -> Result<(), WriteError>
    ensures { Adds W.sink text.old text.new result (square_entry y name.now index) }
{
    add_pieces(
        text,
        &[
            Piece::Bytes(b"<g transform='translate(16,"),
            Piece::Number(y),
            Piece::Bytes(b")'><rect class='v' x='1' y='-7' width='14' height='14'/>"),
            Piece::Bytes(b"<text class='s' x='28' y='4'>event "),
            Piece::Number(index),
            Piece::Bytes(b" of "),
            Piece::Escaped(name),
            Piece::Bytes(b"</text></g>\n"),
        ],
    )
}

/// Adds the legend of the ring, at this height.
#[tactic(auto, unfolding(crate::specs::Witness::Beside::ring_entry))]
fn add_ring_entry<W: Out>(
    text: &mut TextBuffer<'_, W>,
    y: u64,
    name: &[u8],
    index: u64,
) -> Result<(), WriteError>
    ensures { Adds W.sink text.old text.new result (ring_entry y name.now index) }
{
    add_pieces(
        text,
        &[
            Piece::Bytes(b"<g transform='translate(16,"),
            Piece::Number(y),
            Piece::Bytes(b")'><circle class='v' cx='8' cy='0' r='7'/>"),
            Piece::Bytes(b"<text class='s' x='28' y='4'>receive "),
            Piece::Number(index),
            Piece::Bytes(b" of "),
            Piece::Escaped(name),
            Piece::Bytes(b", which comes first on the right</text></g>\n"),
        ],
    )
}

/// Adds the legend of both marks, from this height down.
#[tactic(auto, using(texts::proofs::Writes::joining), unfolding(crate::specs::Witness::Beside::key))]
fn add_key<W: Out>(
    text: &mut TextBuffer<'_, W>,
    y: u64,
    name: &[u8],
    pair: &Pair,
) -> Result<(), WriteError>
    requires { y ≤ 200000000000 }
    ensures { Adds W.sink text.old text.new result (key y name.now pair.now) }
{
    add_square_entry(text, y + 8, name, u64::from(pair.earlier.index))?;
    add_ring_entry(text, y + 28, name, u64::from(pair.receive.index))
}

/// Adds both pictures, and below them the legend of the marks. The pair belongs to the instance with this name.
#[tactic(auto, using(texts::proofs::Writes::joining), unfolding(crate::specs::Witness::Beside::beside_text))]
fn add_beside<W: Out>(
    text: &mut TextBuffer<'_, W>,
    words: &[u8],
    name: &[u8],
    pair: &Pair,
    left: &Picture<'_>,
    right: &Picture<'_>,
    there: &Marked,
) -> Result<(), WriteError>
    ensures { Adds W.sink text.old text.new result
        (beside_text words.now name.now pair.now left.now right.now there.now) }
{
    let wide = u64::from(left.width());
    let tall = left.tall().max(right.tall());
    add_svg_start(text, wide + u64::from(right.width()), tall + 44)?;
    add_title(text, words)?;
    add_ground(text)?;
    add_side(text, 0, left, Some(pair.earlier), Some(pair.receive))?;
    add_side(text, wide, right, there.earlier, there.receive)?;
    add_key(text, tall, name, pair)?;
    add_svg_end(text)
}

/// Writes two pictures beside each other under this title, and nothing else. On the left the pair of the instance with
/// this name is marked, and on the right the events of `there`. It takes no memory. If a put fails (F24), it has
/// written a beginning of the text, and tries no other put.
#[tactic(auto, using(texts::proofs::Writes::joining))]
pub(crate) fn write_beside<W: Out>(
    words: &[u8],
    name: &[u8],
    pair: &Pair,
    left: &Picture<'_>,
    right: &Picture<'_>,
    there: &Marked,
    out: &mut W,
) -> Result<(), WriteError>
    ensures { Wrote W.sink out.old out.new result
        (beside_text words.now name.now pair.now left.now right.now there.now) }
{
    let mut text = TextBuffer::new(out);
    add_beside(&mut text, words, name, pair, left, right, there)?;
    text.finish()
}
