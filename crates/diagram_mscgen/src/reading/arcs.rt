//! The items of arcs.
ghost use Rattle.std.specs.Prelude.{◌≡◌, ◌≤◌, ◌<◌, ◌+◌, ◌^◌, length, map, unwrap_or, IfOk, OnOk, []};
ghost use Rattle.diagrams.specs.Diagrams.{arrow_view, AnArrow};
ghost use Rattle.diagrams.specs.LeftOuts.{with_one};
ghost use Rattle.diagram_mscgen.specs.Grammar.Arcs.{arc_view};
ghost use Rattle.diagram_mscgen.specs.Reading.Arcs.{label_of, arrow_of, with_item, without, with_message, with_note, with_pair};
ghost use Rattle.diagram_mscgen.specs.Reading.Arcs.{with_other, with_others, with_spacer, with_all, with_ends, rows_by, ended_row, with_arc, last_row, rows_of, Draws};
ghost use Rattle.diagram_mscgen.specs.Reading.Entities.{known_at};

use crate::grammar::{Arc, ArcKind};
use crate::reading::entities::{known_at, place_of};
use crate::reading::error::{Fault, ReadError};
use crate::reading::quoted::text_of;
use diagrams::{Arrow, Item, Kind, LeftOut, Note, leave_out};
use std::alloc::{AllocError, Global};
use std::marker::Model;

/// The items of the arcs so far. A contract sees a record of its fields.
#[derive(Drop)]
pub(crate) struct Rows {
    /// The number of the next row, from 0.
    row: u64,
    pub items: Vec<Item>,
    pub left_out: Vec<LeftOut>,
}

impl Model for Rows {
    ghost use Rattle.std.specs.Prelude.{map};
    ghost use Rattle.diagrams.specs.Diagrams.{item_view};
    ghost use Rattle.diagram_mscgen.specs.Reading.Arcs.{RowsView};

    ghost Value = { RowsView };

    ghost view = { λ s. record { row = s.row; items = map item_view s.items.items; left_out = s.left_out.items } };
}

/// The label of an arc, as it is written.
fn written<'a>(arc: &Arc<'a>) -> &'a [u8]
    ensures { result.now ≡ unwrap_or (arc_view arc.now).label [] }
{
    match arc.label {
        Some(label) => label,
        None => &[],
    }
}

/// The label of an arc.
fn label_of(alloc: Global, arc: &Arc<'_>) -> Result<Vec<u8>, AllocError>
    ensures { IfOk result (λ label. label.items ≡ label_of (arc_view arc.now)) }
{
    text_of(alloc, written(arc))
}

/// The parts that all arrows of an arc share: the chart's last row, whether nobody receives them, and the sender.
#[derive(Clone, Copy)]
struct Way {
    last: u64,
    is_lost: bool,
    sender: usize,
}

impl Rows {
    /// Adds an arrow to a participant.
    fn add_arrow(
        &mut self,
        alloc: Global,
        arc: &Arc<'_>,
        way: Way,
        receiver: usize,
    ) -> Result<(), AllocError>
        ensures { OnOk result (self.new ≡ with_item
            (AnArrow (arrow_of way.last self.old.row (arc_view arc.now) way.is_lost way.sender receiver)) self.old) }
    {
        let label = label_of(alloc, arc)?;
        let below = way.last.saturating_sub(self.row);
        self.items.push(Item::Arrow(Arrow {
            place: place_of(arc.place),
            begins: self.row,
            ends: self.row + u64::from(arc.skip).min(below),
            sender: way.sender,
            receiver,
            label,
            is_lost: way.is_lost,
        }))?;
        Ok(())
    }

    /// Skips an arc, and counts it under this kind.
    fn leave(&mut self, kind: Kind, arc: &Arc<'_>) -> Result<(), AllocError>
        ensures { OnOk result (self.new ≡ without kind (arc_view arc.now) self.old) }
    {
        leave_out(&mut self.left_out, kind, place_of(arc.place))
    }

    /// Adds a message from one participant to another. A message to itself is skipped.
    fn add_message(
        &mut self,
        alloc: Global,
        arc: &Arc<'_>,
        way: Way,
        receiver: usize,
    ) -> Result<(), AllocError>
        ensures { OnOk result (self.new ≡ with_message way.last way.is_lost way.sender receiver
            (arc_view arc.now) self.old) }
    {
        if way.sender == receiver {
            self.leave(Kind::MessageToItself, arc)
        } else {
            self.add_arrow(alloc, arc, way, receiver)
        }
    }

    /// Adds a note. A note at two participants or without a text is skipped.
    fn add_note(
        &mut self,
        alloc: Global,
        arc: &Arc<'_>,
        from: usize,
        to: usize,
    ) -> Result<(), AllocError>
        ensures { OnOk result (self.new ≡ with_note from to (arc_view arc.now) self.old) }
    {
        if from != to {
            return self.leave(Kind::Note, arc);
        }
        let text = label_of(alloc, arc)?;
        if text.is_empty() {
            return self.leave(Kind::Note, arc);
        }
        self.items.push(Item::Note(Note {
            place: place_of(arc.place),
            row: self.row,
            participant: from,
            text,
        }))?;
        Ok(())
    }

    /// Adds an arc between two participants.
    fn add_pair(
        &mut self,
        alloc: Global,
        arc: &Arc<'_>,
        last: u64,
        from: usize,
        to: usize,
    ) -> Result<(), AllocError>
        ensures { OnOk result (self.new ≡ with_pair last arc.now.kind from to (arc_view arc.now) self.old) }
    {
        match arc.kind {
            ArcKind::Message => self.add_message(
                alloc,
                arc,
                Way {
                    last,
                    is_lost: false,
                    sender: from,
                },
                to,
            ),
            ArcKind::Lost => self.add_message(
                alloc,
                arc,
                Way {
                    last,
                    is_lost: true,
                    sender: from,
                },
                to,
            ),
            ArcKind::Both => self.leave(Kind::ArrowBothWays, arc),
            ArcKind::Line => self.leave(Kind::Line, arc),
            ArcKind::Box => self.leave(Kind::Box, arc),
            ArcKind::Note => self.add_note(alloc, arc, from, to),
            ArcKind::Spacer | ArcKind::Broadcast | ArcKind::LostBroadcast => Ok(()),
        }
    }

    /// Adds an arrow to a participant, if it isn't the sender.
    fn add_other(
        &mut self,
        alloc: Global,
        arc: &Arc<'_>,
        way: Way,
        receiver: usize,
    ) -> Result<(), AllocError>
        ensures { OnOk result (self.new ≡ with_other way.last way.is_lost way.sender (arc_view arc.now) receiver self.old) }
    {
        if receiver == way.sender {
            return Ok(());
        }
        self.add_arrow(alloc, arc, way, receiver)
    }

    /// Adds an arrow to each of `count` participants except the sender.
    fn add_others(
        &mut self,
        alloc: Global,
        arc: &Arc<'_>,
        way: Way,
        count: usize,
    ) -> Result<(), AllocError>
        ensures { OnOk result (self.new ≡ with_others way.last way.is_lost way.sender (arc_view arc.now) 0 count self.old) }
    {
        for receiver in 0..count {
            self.add_other(alloc, arc, way, receiver)?;
        }
        Ok(())
    }

    /// Adds a row without an arc, which is counted as skipped if it has a label.
    fn add_spacer(&mut self, arc: &Arc<'_>) -> Result<(), AllocError>
        ensures { OnOk result (self.new ≡ with_spacer (arc_view arc.now) (arc_view arc.now).label self.old) }
    {
        match arc.label {
            None => Ok(()),
            Some(_) => self.leave(Kind::Divider, arc),
        }
    }

    /// Adds an arc to all other participants.
    fn add_all(
        &mut self,
        alloc: Global,
        words: &[&[u8]],
        arc: &Arc<'_>,
        last: u64,
        is_lost: bool,
    ) -> Result<(), ReadError>
        ensures { Draws (λ _. self.new) result (with_all (map (λ w. w.now) words.now) last is_lost (arc_view arc.now) self.old) }
    {
        let Some(sender) = known_at(words, arc.from) else {
            return Err(unknown_in(arc));
        };
        self.add_others(
            alloc,
            arc,
            Way {
                last,
                is_lost,
                sender,
            },
            words.len(),
        )?;
        Ok(())
    }

    /// Adds an arc between participants with these words.
    fn add_ends(
        &mut self,
        alloc: Global,
        words: &[&[u8]],
        arc: &Arc<'_>,
        last: u64,
    ) -> Result<(), ReadError>
        ensures { Draws (λ _. self.new) result (with_ends last (arc_view arc.now) self.old
            (known_at (map (λ w. w.now) words.now) arc.now.from.now) (known_at (map (λ w. w.now) words.now) arc.now.to.now)) }
    {
        let (Some(from), Some(to)) = (known_at(words, arc.from), known_at(words, arc.to)) else {
            return Err(unknown_in(arc));
        };
        self.add_pair(alloc, arc, last, from, to)?;
        Ok(())
    }

    /// Adds the items of an arc.
    fn add_event(
        &mut self,
        alloc: Global,
        words: &[&[u8]],
        arc: &Arc<'_>,
        last: u64,
    ) -> Result<(), ReadError>
        ensures { Draws (λ _. self.new) result (rows_by (map (λ w. w.now) words.now) last (arc_view arc.now) self.old
            arc.now.kind) }
    {
        match arc.kind {
            ArcKind::Spacer => {
                self.add_spacer(arc)?;
                Ok(())
            }
            ArcKind::Broadcast => self.add_all(alloc, words, arc, last, false),
            ArcKind::LostBroadcast => self.add_all(alloc, words, arc, last, true),
            _ => self.add_ends(alloc, words, arc, last),
        }
    }

    /// Begins the next row, if the arc ends its own.
    fn end_row(&mut self, ends: bool)
        requires { self.old.row + 1 < 2 ^ 64 }
        ensures { self.new ≡ ended_row ends self.old }
    {
        if ends {
            self.row += 1;
        }
    }

    /// Adds one more arc.
    #[tactic(auto, unfolding(crate::specs::Reading::Arcs::with_arc))]
    fn add(
        &mut self,
        alloc: Global,
        words: &[&[u8]],
        arc: &Arc<'_>,
        last: u64,
    ) -> Result<(), ReadError>
        requires { self.old.row + 1 < 2 ^ 64 }
        ensures built { Draws (λ _. self.new) result
            (with_arc (map (λ w. w.now) words.now) last (arc_view arc.now) self.old) }
        ensures row { OnOk result (self.new.row ≤ self.old.row + 1) }
    {
        self.add_event(alloc, words, arc, last)?;
        self.end_row(arc.ends_row);
        Ok(())
    }
}

/// The fault of an arc that names an entity which doesn't exist.
fn unknown_in(arc: &Arc<'_>) -> ReadError
    ensures { result ≡ ReadError.Fault (Fault.UnknownEntity arc.now.place.line) }
{
    ReadError::Fault(Fault::UnknownEntity(arc.place.line))
}

/// The number of the last row, from 0.
#[tactic(auto, unfolding(crate::specs::Reading::Arcs::last_row))]
fn last_row(arcs: &[Arc<'_>]) -> u64
    ensures { result ≡ last_row (map arc_view arcs.now) }
{
    let rows = arcs.iter().filter(|arc| arc.ends_row).count();
    (rows as u64).saturating_sub(1)
}

/// The items of a chart's arcs.
#[tactic(auto, unfolding(crate::specs::Reading::Arcs::rows_of))]
pub(crate) fn rows_of(
    alloc: Global,
    words: &[&[u8]],
    left_out: Vec<LeftOut>,
    arcs: &[Arc<'_>],
) -> Result<Rows, ReadError>
    ensures { Draws (λ rows. rows) result (rows_of (map (λ w. w.now) words.now) left_out.items (map arc_view arcs.now)) }
{
    let last = last_row(arcs);
    let mut rows = Rows {
        row: 0,
        items: Vec::new(alloc),
        left_out,
    };
    for arc in arcs {
        rows.add(alloc, words, arc, last)?;
    }
    Ok(rows)
}
