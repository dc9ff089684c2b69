//! The elements of a picture.
ghost use Rattle.std.specs.Prelude.{◌≡◌};
ghost use Rattle.texts.specs.Writing.{Adds};
ghost use Rattle.picture_parts.specs.Elements.Elements.{arrow, ring, ground};
ghost use Rattle.picture_parts.specs.Elements.Elements.{label_start, label_end, number_text, point_start, group_end, solid, dashed};
ghost use Rattle.picture_parts.specs.Elements.Elements.{segment, dot_start, dot_end, bracket_name, bracket_outline, bracket_end, head_box};
ghost use Rattle.picture_parts.specs.Elements.Elements.{foot};

use crate::elements::spot::Spot;
use texts::pieces::{Piece, add_pieces};
use texts::{Out, TextBuffer, WriteError};

/// Adds an arrow between two spots.
#[tactic(auto, unfolding(crate::specs::Elements::Elements::arrow))]
pub fn add_arrow<W: Out>(
    text: &mut TextBuffer<'_, W>,
    from: Spot,
    to: Spot,
) -> Result<(), WriteError>
    ensures { Adds W.sink text.old text.new result (arrow from to) }
{
    add_pieces(
        text,
        &[
            Piece::Bytes(b"<path class='m' d='M"),
            Piece::Number(from.x),
            Piece::Bytes(b" "),
            Piece::Number(from.y),
            Piece::Bytes(b"L"),
            Piece::Number(to.x),
            Piece::Bytes(b" "),
            Piece::Number(to.y),
            Piece::Bytes(b"'/>\n"),
        ],
    )
}

/// Adds a small open circle.
#[tactic(auto, unfolding(crate::specs::Elements::Elements::ring))]
pub fn add_ring<W: Out>(text: &mut TextBuffer<'_, W>, at: Spot) -> Result<(), WriteError>
    ensures { Adds W.sink text.old text.new result (ring at) }
{
    add_pieces(
        text,
        &[
            Piece::Bytes(b"<circle class='w' cx='"),
            Piece::Number(at.x),
            Piece::Bytes(b"' cy='"),
            Piece::Number(at.y),
            Piece::Bytes(b"' r='4'/>\n"),
        ],
    )
}

/// Adds a background in the picture's colour.
#[tactic(auto, unfolding(crate::specs::Elements::Elements::ground))]
pub fn add_ground<W: Out>(
    text: &mut TextBuffer<'_, W>,
    at: Spot,
    width: u64,
    tall: u64,
) -> Result<(), WriteError>
    ensures { Adds W.sink text.old text.new result (ground at width tall) }
{
    add_pieces(
        text,
        &[
            Piece::Bytes(b"<rect class='g' x='"),
            Piece::Number(at.x),
            Piece::Bytes(b"' y='"),
            Piece::Number(at.y),
            Piece::Bytes(b"' width='"),
            Piece::Number(width),
            Piece::Bytes(b"' height='"),
            Piece::Number(tall),
            Piece::Bytes(b"'/>\n"),
        ],
    )
}

/// Adds the beginning of a label that begins at the spot.
#[tactic(auto, unfolding(crate::specs::Elements::Elements::label_start))]
pub fn add_label_start<W: Out>(text: &mut TextBuffer<'_, W>, at: Spot) -> Result<(), WriteError>
    ensures { Adds W.sink text.old text.new result (label_start at) }
{
    add_pieces(
        text,
        &[
            Piece::Bytes(b"<text class='s' x='"),
            Piece::Number(at.x),
            Piece::Bytes(b"' y='"),
            Piece::Number(at.y),
            Piece::Bytes(b"'>"),
        ],
    )
}

/// Adds the end of a label.
#[tactic(auto, unfolding(crate::specs::Elements::Elements::label_end))]
pub fn add_label_end<W: Out>(text: &mut TextBuffer<'_, W>) -> Result<(), WriteError>
    ensures { Adds W.sink text.old text.new result label_end }
{
    text.add(b"</text>\n")
}

/// Adds a number with these classes.
#[tactic(auto, unfolding(crate::specs::Elements::Elements::number_text))]
pub fn add_number<W: Out>(
    text: &mut TextBuffer<'_, W>,
    classes: &[u8],
    at: Spot,
    number: u64,
) -> Result<(), WriteError>
    ensures { Adds W.sink text.old text.new result (number_text classes.now at number) }
{
    add_pieces(
        text,
        &[
            Piece::Bytes(b"<text class='"),
            Piece::Bytes(classes),
            Piece::Bytes(b"' x='"),
            Piece::Number(at.x),
            Piece::Bytes(b"' y='"),
            Piece::Number(at.y),
            Piece::Bytes(b"'>"),
            Piece::Number(number),
            Piece::Bytes(b"</text>\n"),
        ],
    )
}

/// Adds the beginning of an event's group, with a point at its place.
#[tactic(auto, unfolding(crate::specs::Elements::Elements::point_start))]
pub fn add_point_start<W: Out>(
    text: &mut TextBuffer<'_, W>,
    instance: u64,
    index: u64,
    at: Spot,
) -> Result<(), WriteError>
    ensures { Adds W.sink text.old text.new result (point_start instance index at) }
{
    add_pieces(
        text,
        &[
            Piece::Bytes(b"<g id='e"),
            Piece::Number(instance),
            Piece::Bytes(b"-"),
            Piece::Number(index),
            Piece::Bytes(b"'><circle class='p' cx='"),
            Piece::Number(at.x),
            Piece::Bytes(b"' cy='"),
            Piece::Number(at.y),
            Piece::Bytes(b"' r='4'/>"),
        ],
    )
}

/// Adds the end of a group.
#[tactic(auto, unfolding(crate::specs::Elements::Elements::group_end))]
pub fn add_group_end<W: Out>(text: &mut TextBuffer<'_, W>) -> Result<(), WriteError>
    ensures { Adds W.sink text.old text.new result group_end }
{
    text.add(b"</g>\n")
}

/// Adds the solid part of a lifeline between two heights.
#[tactic(auto, unfolding(crate::specs::Elements::Elements::solid))]
fn add_solid<W: Out>(
    text: &mut TextBuffer<'_, W>,
    x: u64,
    from: u64,
    to: u64,
) -> Result<(), WriteError>
    ensures { Adds W.sink text.old text.new result (solid x from to) }
{
    add_pieces(
        text,
        &[
            Piece::Bytes(b"<path d='M"),
            Piece::Number(x),
            Piece::Bytes(b" "),
            Piece::Number(from),
            Piece::Bytes(b"V"),
            Piece::Number(to),
            Piece::Bytes(b"'/>\n"),
        ],
    )
}

/// Adds the dashed part of a lifeline between two heights.
#[tactic(auto, unfolding(crate::specs::Elements::Elements::dashed))]
fn add_dashed<W: Out>(
    text: &mut TextBuffer<'_, W>,
    x: u64,
    from: u64,
    to: u64,
) -> Result<(), WriteError>
    ensures { Adds W.sink text.old text.new result (dashed x from to) }
{
    add_pieces(
        text,
        &[
            Piece::Bytes(b"<path class='c' d='M"),
            Piece::Number(x),
            Piece::Bytes(b" "),
            Piece::Number(from),
            Piece::Bytes(b"V"),
            Piece::Number(to),
            Piece::Bytes(b"'/>\n"),
        ],
    )
}

/// Adds the part of a lifeline between two heights, in this coregion, or in none if it is 0.
#[tactic(auto, unfolding(crate::specs::Elements::Elements::segment))]
pub fn add_segment<W: Out>(
    text: &mut TextBuffer<'_, W>,
    region: u32,
    x: u64,
    from: u64,
    to: u64,
) -> Result<(), WriteError>
    ensures { Adds W.sink text.old text.new result (segment region x from to) }
{
    if region == 0 {
        add_solid(text, x, from, to)
    } else {
        add_dashed(text, x, from, to)
    }
}

/// Adds the beginning of a racing receive's group, with its dot, up to the dot's title.
#[tactic(auto, unfolding(crate::specs::Elements::Elements::dot_start))]
pub fn add_dot_start<W: Out>(
    text: &mut TextBuffer<'_, W>,
    instance: u64,
    index: u64,
    at: Spot,
) -> Result<(), WriteError>
    ensures { Adds W.sink text.old text.new result (dot_start instance index at) }
{
    add_pieces(
        text,
        &[
            Piece::Bytes(b"<g id='r"),
            Piece::Number(instance),
            Piece::Bytes(b"-"),
            Piece::Number(index),
            Piece::Bytes(b"'><circle class='r' cx='"),
            Piece::Number(at.x),
            Piece::Bytes(b"' cy='"),
            Piece::Number(at.y),
            Piece::Bytes(b"' r='4'><title>may come before "),
        ],
    )
}

/// Adds the end of a receive's dot.
#[tactic(auto, unfolding(crate::specs::Elements::Elements::dot_end))]
pub fn add_dot_end<W: Out>(text: &mut TextBuffer<'_, W>) -> Result<(), WriteError>
    ensures { Adds W.sink text.old text.new result dot_end }
{
    text.add(b"</title></circle>\n")
}

/// Adds the beginning of the bracket of a receive for a range that begins with this event.
#[tactic(auto, unfolding(crate::specs::Elements::Elements::bracket_name))]
pub fn add_bracket_name<W: Out>(
    text: &mut TextBuffer<'_, W>,
    instance: u64,
    index: u64,
    first: u64,
) -> Result<(), WriteError>
    ensures { Adds W.sink text.old text.new result (bracket_name instance index first) }
{
    add_pieces(
        text,
        &[
            Piece::Bytes(b"<path id='b"),
            Piece::Number(instance),
            Piece::Bytes(b"-"),
            Piece::Number(index),
            Piece::Bytes(b"-"),
            Piece::Number(first),
            Piece::Bytes(b"' class='b' d='"),
        ],
    )
}

/// Adds the outline of a bracket, and the number of its receive.
#[tactic(auto, unfolding(crate::specs::Elements::Elements::bracket_outline))]
pub fn add_bracket_outline<W: Out>(
    text: &mut TextBuffer<'_, W>,
    upper: Spot,
    lower: u64,
    inner: u64,
    receive: u64,
) -> Result<(), WriteError>
    ensures { Adds W.sink text.old text.new result (bracket_outline upper lower inner receive) }
{
    add_pieces(
        text,
        &[
            Piece::Bytes(b"M"),
            Piece::Number(inner),
            Piece::Bytes(b" "),
            Piece::Number(upper.y),
            Piece::Bytes(b"H"),
            Piece::Number(upper.x),
            Piece::Bytes(b"V"),
            Piece::Number(lower),
            Piece::Bytes(b"H"),
            Piece::Number(inner),
            Piece::Bytes(b"'><title>"),
            Piece::Number(receive),
            Piece::Bytes(b" may come before "),
        ],
    )
}

/// Adds the end of a bracket.
#[tactic(auto, unfolding(crate::specs::Elements::Elements::bracket_end))]
pub fn add_bracket_end<W: Out>(text: &mut TextBuffer<'_, W>) -> Result<(), WriteError>
    ensures { Adds W.sink text.old text.new result bracket_end }
{
    text.add(b"</title></path>\n")
}

/// Adds the box of an instance's name.
#[tactic(auto, unfolding(crate::specs::Elements::Elements::head_box))]
pub fn add_head_box<W: Out>(
    text: &mut TextBuffer<'_, W>,
    left: u64,
    width: u64,
) -> Result<(), WriteError>
    ensures { Adds W.sink text.old text.new result (head_box left width) }
{
    add_pieces(
        text,
        &[
            Piece::Bytes(b"<rect x='"),
            Piece::Number(left),
            Piece::Bytes(b"' y='24' width='"),
            Piece::Number(width),
            Piece::Bytes(b"' height='28'/>\n"),
        ],
    )
}

/// Adds the end of a lifeline, which begins here.
#[tactic(auto, unfolding(crate::specs::Elements::Elements::foot))]
pub fn add_foot<W: Out>(text: &mut TextBuffer<'_, W>, from: Spot) -> Result<(), WriteError>
    ensures { Adds W.sink text.old text.new result (foot from) }
{
    add_pieces(
        text,
        &[
            Piece::Bytes(b"<path class='f' d='M"),
            Piece::Number(from.x),
            Piece::Bytes(b" "),
            Piece::Number(from.y),
            Piece::Bytes(b"h24'/>\n"),
        ],
    )
}
