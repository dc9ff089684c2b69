//! The meanings of a picture's marks, for those that it has.
ghost use Rattle.std.specs.Prelude.{◌≡◌, ◌≤◌};
ghost use Rattle.texts.specs.Writing.{Adds};
ghost use Rattle.picture_parts.specs.Elements.Legends.{entry_start, races_entry, waits_entry, regions_entry, races_at};
ghost use Rattle.picture_parts.specs.Elements.Legends.{waits_at, regions_at, races_tall, entry_tall, races_part, waits_part};
ghost use Rattle.picture_parts.specs.Elements.Legends.{regions_part, legend, legend_tall};

use texts::pieces::{Piece, add_pieces};
use texts::{Out, TextBuffer, WriteError};

/// The marks that a picture has.
#[derive(Clone, Copy)]
pub struct Marks {
    pub races: bool,
    pub waits: bool,
    pub regions: bool,
}

/// Adds the beginning of an entry at this height.
#[tactic(auto, unfolding(crate::specs::Elements::Legends::entry_start))]
fn add_entry_start<W: Out>(text: &mut TextBuffer<'_, W>, y: u64) -> Result<(), WriteError>
    ensures { Adds W.sink text.old text.new result (entry_start y) }
{
    add_pieces(
        text,
        &[
            Piece::Bytes(b"<g transform='translate(16,"),
            Piece::Number(y),
            Piece::Bytes(b")'>"),
        ],
    )
}

/// Adds the meaning of a dot and of a bracket.
#[tactic(auto, unfolding(crate::specs::Elements::Legends::races_entry))]
fn add_races_entry<W: Out>(text: &mut TextBuffer<'_, W>) -> Result<(), WriteError>
    ensures { Adds W.sink text.old text.new result races_entry }
{
    add_pieces(
        text,
        &[
            Piece::Bytes(
                b"<circle class='r' cx='8' cy='0' r='4'/><text class='n k' x='15' y='9'>N</text>",
            ),
            Piece::Bytes(
                b"<text class='s' x='28' y='4'>receive N may come before earlier events (a race)</text>\n",
            ),
            Piece::Bytes(
                b"<path class='b' d='M11 14H6V24H11'/><text class='n k' x='15' y='24'>N</text>",
            ),
            Piece::Bytes(
                b"<text class='s' x='28' y='22'>the events that receive N may come before</text></g>\n",
            ),
        ],
    )
}

/// Adds the meaning of an open circle.
#[tactic(auto, unfolding(crate::specs::Elements::Legends::waits_entry))]
fn add_waits_entry<W: Out>(text: &mut TextBuffer<'_, W>) -> Result<(), WriteError>
    ensures { Adds W.sink text.old text.new result waits_entry }
{
    add_pieces(
        text,
        &[
            Piece::Bytes(b"<circle class='w' cx='8' cy='0' r='4'/>"),
            Piece::Bytes(
                b"<text class='s' x='28' y='4'>a message that waits: sent, and not received</text></g>\n",
            ),
        ],
    )
}

/// Adds the meaning of a dashed lifeline.
#[tactic(auto, unfolding(crate::specs::Elements::Legends::regions_entry))]
fn add_regions_entry<W: Out>(text: &mut TextBuffer<'_, W>) -> Result<(), WriteError>
    ensures { Adds W.sink text.old text.new result regions_entry }
{
    add_pieces(
        text,
        &[
            Piece::Bytes(b"<path class='c' d='M8 -7V7'/>"),
            Piece::Bytes(
                b"<text class='s' x='28' y='4'>a coregion: its receives may come in any order</text></g>\n",
            ),
        ],
    )
}

#[tactic(auto, using(texts::proofs::Writes::joining), unfolding(crate::specs::Elements::Legends::races_at))]
fn add_races_at<W: Out>(text: &mut TextBuffer<'_, W>, y: u64) -> Result<(), WriteError>
    ensures { Adds W.sink text.old text.new result (races_at y) }
{
    add_entry_start(text, y)?;
    add_races_entry(text)
}

#[tactic(auto, using(texts::proofs::Writes::joining), unfolding(crate::specs::Elements::Legends::waits_at))]
fn add_waits_at<W: Out>(text: &mut TextBuffer<'_, W>, y: u64) -> Result<(), WriteError>
    ensures { Adds W.sink text.old text.new result (waits_at y) }
{
    add_entry_start(text, y)?;
    add_waits_entry(text)
}

#[tactic(auto, using(texts::proofs::Writes::joining), unfolding(crate::specs::Elements::Legends::regions_at))]
fn add_regions_at<W: Out>(text: &mut TextBuffer<'_, W>, y: u64) -> Result<(), WriteError>
    ensures { Adds W.sink text.old text.new result (regions_at y) }
{
    add_entry_start(text, y)?;
    add_regions_entry(text)
}

/// The height of the entries for races, if they are there.
fn races_tall(there: bool) -> u64
    ensures value { result ≡ races_tall there }
    ensures limit { result ≤ 36 }
{
    if there { 36 } else { 0 }
}

/// The height of another entry, if it is there.
fn entry_tall(there: bool) -> u64
    ensures value { result ≡ entry_tall there }
    ensures limit { result ≤ 18 }
{
    if there { 18 } else { 0 }
}

fn add_races_part<W: Out>(
    text: &mut TextBuffer<'_, W>,
    there: bool,
    y: u64,
) -> Result<(), WriteError>
    ensures { Adds W.sink text.old text.new result (races_part there y) }
{
    if there {
        add_races_at(text, y)
    } else {
        text.add(b"")
    }
}

fn add_waits_part<W: Out>(
    text: &mut TextBuffer<'_, W>,
    there: bool,
    y: u64,
) -> Result<(), WriteError>
    ensures { Adds W.sink text.old text.new result (waits_part there y) }
{
    if there {
        add_waits_at(text, y)
    } else {
        text.add(b"")
    }
}

fn add_regions_part<W: Out>(
    text: &mut TextBuffer<'_, W>,
    there: bool,
    y: u64,
) -> Result<(), WriteError>
    ensures { Adds W.sink text.old text.new result (regions_part there y) }
{
    if there {
        add_regions_at(text, y)
    } else {
        text.add(b"")
    }
}

/// The height of the legend.
pub fn legend_tall(marks: &Marks) -> u64
    ensures value { result ≡ legend_tall marks.now.races marks.now.waits marks.now.regions }
    ensures limit { result ≤ 72 }
{
    races_tall(marks.races) + entry_tall(marks.waits) + entry_tall(marks.regions)
}

/// Adds the legend, from this height on.
#[tactic(auto, using(texts::proofs::Writes::joining), unfolding(crate::specs::Elements::Legends::legend))]
pub fn add_legend<W: Out>(
    text: &mut TextBuffer<'_, W>,
    marks: &Marks,
    y: u64,
) -> Result<(), WriteError>
    requires { y ≤ 1000000000000 }
    ensures { Adds W.sink text.old text.new result
        (legend marks.now.races marks.now.waits marks.now.regions y) }
{
    let waits = y + races_tall(marks.races);
    add_races_part(text, marks.races, y)?;
    add_waits_part(text, marks.waits, waits)?;
    add_regions_part(text, marks.regions, waits + entry_tall(marks.waits))
}
