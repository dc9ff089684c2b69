//! Rows of arrows and notes, and the skipped constructs.
ghost use Rattle.std.specs.Prelude.{◌≡◌, OnOk};
ghost use Rattle.diagram_statements.specs.ToDiagram.Rows.{rows_view, sent_view, at_place, kind_of_form, is_lost, pair_of, message_of, no_rows, closed};
ghost use Rattle.diagram_statements.specs.ToDiagram.Rows.{with_left_out, opened, with_row, with_arrow, with_note};

use crate::to_diagram::activations::Ends;
use crate::to_diagram::labels::{Breaks, label_of};
use crate::{ArrowForm, Place};
use diagrams::{Arrow, Item, Kind, LeftOut, Note, leave_out};
use std::alloc::{AllocError, Global};

/// The items of a diagram so far.
#[derive(Debug, Drop)]
pub(crate) struct Rows {
    pub items: Vec<Item>,
    pub left_out: Vec<LeftOut>,
    /// The number of rows.
    pub count: u64,
    /// Whether an arrow is directly above, so that an arrow beside it is in its row.
    pub is_open: bool,
}

/// An arrow as it is drawn.
#[derive(Clone, Copy, Debug)]
pub(crate) struct Sent<'a> {
    pub ends: Ends,
    pub form: ArrowForm,
    pub label: &'a [u8],
    pub is_beside: bool,
}

fn at_place(place: Place) -> diagrams::Place
    ensures { result ≡ at_place place }
{
    diagrams::Place {
        line: place.line,
        column: place.column,
    }
}

/// The kind under which an arrow of this form is skipped, if it is.
fn kind_of_form(form: ArrowForm) -> Option<Kind>
    ensures { result ≡ kind_of_form form }
{
    match form {
        ArrowForm::Message | ArrowForm::Lost => None,
        ArrowForm::BothWays => Some(Kind::ArrowBothWays),
        ArrowForm::Headless => Some(Kind::Line),
        ArrowForm::Hidden => Some(Kind::HiddenArrow),
    }
}

fn is_lost(form: ArrowForm) -> bool
    ensures { result ≡ is_lost form }
{
    match form {
        ArrowForm::Lost => true,
        ArrowForm::Message | ArrowForm::BothWays | ArrowForm::Headless | ArrowForm::Hidden => false,
    }
}

/// The participants of an arrow that goes from one to another, or the kind under which the arrow is skipped for its
/// ends.
fn pair_of(ends: Ends) -> Result<(usize, usize), Kind>
    ensures { result ≡ pair_of ends }
{
    match (ends.sender, ends.receiver) {
        (Some(sender), Some(receiver)) => {
            if sender == receiver {
                Err(Kind::MessageToItself)
            } else {
                Ok((sender, receiver))
            }
        }
        _ => Err(Kind::ArrowAtTheEdge),
    }
}

/// The participants between which a message goes, or the kind under which the arrow is skipped.
#[tactic(auto, unfolding(crate::specs::ToDiagram::Rows::message_of))]
fn message_of(form: ArrowForm, ends: Ends) -> Result<(usize, usize), Kind>
    ensures { result ≡ message_of form ends }
{
    match kind_of_form(form) {
        Some(kind) => Err(kind),
        None => pair_of(ends),
    }
}

impl Rows {
    pub(crate) fn new(alloc: Global) -> Rows
        ensures { rows_view result ≡ no_rows }
    {
        Rows {
            items: Vec::new(alloc),
            left_out: Vec::new(alloc),
            count: 0,
            is_open: false,
        }
    }

    /// Closes the row: the next item is below the arrow above it.
    pub(crate) fn close(&mut self)
        ensures { rows_view self.new ≡ closed (rows_view self.old) }
    {
        self.is_open = false;
    }

    /// Skips a construct.
    pub(crate) fn leave_out(&mut self, kind: Kind, place: Place) -> Result<(), AllocError>
        ensures { OnOk result (rows_view self.new ≡ with_left_out kind place (rows_view self.old)) }
    {
        leave_out(&mut self.left_out, kind, at_place(place))
    }

    /// Begins a row for an arrow, unless it is beside the arrow above it.
    fn open(&mut self, is_beside: bool) -> Result<(), AllocError>
        ensures { OnOk result (rows_view self.new ≡ opened is_beside (rows_view self.old)) }
    {
        if !(is_beside && self.is_open) {
            self.next()?;
        }
        self.is_open = true;
        Ok(())
    }

    /// Begins another row. F6 if its number doesn't fit.
    fn next(&mut self) -> Result<(), AllocError>
        ensures { OnOk result (rows_view self.new ≡ with_row (rows_view self.old)) }
    {
        match self.count.checked_add(1) {
            Some(count) => {
                self.count = count;
                Ok(())
            }
            None => Err(AllocError),
        }
    }

    /// Adds an arrow as a message, unless it is skipped for its form or its ends.
    #[tactic(auto, unfolding(crate::specs::ToDiagram::Rows::with_arrow))]
    pub(crate) fn draw(
        &mut self,
        alloc: Global,
        breaks: Breaks,
        place: Place,
        sent: Sent<'_>,
    ) -> Result<(), AllocError>
        ensures { OnOk result (rows_view self.new ≡ with_arrow breaks place (sent_view sent.entry) (rows_view self.old)) }
    {
        self.open(sent.is_beside)?;
        match message_of(sent.form, sent.ends) {
            Err(kind) => self.leave_out(kind, place),
            Ok((sender, receiver)) => {
                let label = label_of(alloc, breaks, sent.label)?;
                self.items.push(Item::Arrow(Arrow {
                    place: at_place(place),
                    begins: self.count,
                    ends: self.count,
                    sender,
                    receiver,
                    label,
                    is_lost: is_lost(sent.form),
                }))?;
                Ok(())
            }
        }
    }

    /// Adds a note at one participant. With a text it has a row of its own; without one it is skipped.
    #[tactic(auto, unfolding(crate::specs::ToDiagram::Rows::with_note))]
    pub(crate) fn note(
        &mut self,
        alloc: Global,
        place: Place,
        participant: usize,
        text: &[u8],
    ) -> Result<(), AllocError>
        ensures { OnOk result (rows_view self.new ≡ with_note place participant text.now (rows_view self.old)) }
    {
        self.close();
        if text.is_empty() {
            return self.leave_out(Kind::Note, place);
        }
        self.next()?;
        let copy = Vec::from_slice(alloc, text)?;
        self.items.push(Item::Note(Note {
            place: at_place(place),
            row: self.count,
            participant,
            text: copy,
        }))?;
        Ok(())
    }
}
