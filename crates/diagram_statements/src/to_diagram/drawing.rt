//! The effects of actions on a diagram.
ghost use Rattle.std.specs.Prelude.{◌≡◌, map, OnOk, IfOk, option_map};
ghost use Rattle.diagram_statements.specs.Statements.{arrow_view, end_view, note_at_view};
ghost use Rattle.diagram_statements.specs.ToDiagram.Acts.{act_view, effect_view};
ghost use Rattle.diagram_statements.specs.ToDiagram.Drawings.{drawing_view, no_drawing, end_named, EndNames, ends_of, arrow_added, note_added, folded, given_back, done};
ghost use Rattle.diagram_statements.specs.ToDiagram.Participants.{named_view};

use crate::to_diagram::act::{Act, Effect};
use crate::to_diagram::activations::{Activations, Ends};
use crate::to_diagram::labels::Breaks;
use crate::to_diagram::participants::{Named, name, rename};
use crate::to_diagram::rows::{Rows, Sent};
use crate::{Arrow, ArrowForm, End, NoteAt, Place};
use diagrams::Kind;
use std::alloc::{AllocError, Global};

/// The diagram so far.
#[derive(Debug, Drop)]
pub(crate) struct Drawing<'a> {
    pub participants: Vec<Named<'a>>,
    pub activations: Activations,
    pub rows: Rows,
}

/// The place of the participant at an end of an arrow, or none for the edge.
fn name_end<'a>(
    participants: &mut Vec<Named<'a>>,
    line: u64,
    end: Option<End<'a>>,
) -> Result<Option<usize>, AllocError>
    ensures { IfOk result (λ place. EndNames place (map named_view participants.new.items)
        (end_named (map named_view participants.old.items) line (option_map end_view end.entry))) }
{
    match end {
        None => Ok(None),
        Some(end) => {
            let place = name(participants, line, end)?;
            Ok(Some(place))
        }
    }
}

fn ends_of(goes_back: bool, first: Option<usize>, second: Option<usize>) -> Ends
    ensures { result ≡ ends_of goes_back first second }
{
    if goes_back {
        Ends {
            sender: second,
            receiver: first,
        }
    } else {
        Ends {
            sender: first,
            receiver: second,
        }
    }
}

impl<'a> Drawing<'a> {
    pub(crate) fn new(alloc: Global) -> Drawing<'a>
        ensures { drawing_view result ≡ no_drawing }
    {
        Drawing {
            participants: Vec::new(alloc),
            activations: Activations::new(alloc),
            rows: Rows::new(alloc),
        }
    }

    /// Adds an arrow: it names its participants, becomes the last arrow, and has its row.
    fn arrow(
        &mut self,
        alloc: Global,
        breaks: Breaks,
        place: Place,
        arrow: Arrow<'a>,
    ) -> Result<(), AllocError>
        ensures { OnOk result (drawing_view self.new ≡ arrow_added breaks place (arrow_view arrow.entry) (drawing_view self.old)) }
    {
        let first = name_end(&mut self.participants, place.line, arrow.first)?;
        let second = name_end(&mut self.participants, place.line, arrow.second)?;
        let ends = ends_of(arrow.goes_back, first, second);
        self.activations.send(ends, arrow.activates)?;
        let sent = Sent {
            ends,
            form: arrow.form,
            label: arrow.label,
            is_beside: arrow.is_beside,
        };
        self.rows.draw(alloc, breaks, place, sent)
    }

    /// Adds a note. A note at an arrow leaves the arrow's row open.
    fn note(
        &mut self,
        alloc: Global,
        place: Place,
        at: NoteAt<'a>,
        text: &'a [u8],
    ) -> Result<(), AllocError>
        ensures { OnOk result (drawing_view self.new ≡ note_added place (note_at_view at.entry) text.now (drawing_view self.old)) }
    {
        match at {
            NoteAt::Arrow => self.rows.leave_out(Kind::Note, place),
            NoteAt::Participant(word) => {
                let end = End { word, label: None };
                let participant = name(&mut self.participants, place.line, end)?;
                self.rows.note(alloc, place, participant, text)
            }
            NoteAt::Several => {
                self.rows.close();
                self.rows.leave_out(Kind::Note, place)
            }
        }
    }

    /// Draws or skips something.
    fn draw(
        &mut self,
        alloc: Global,
        breaks: Breaks,
        place: Place,
        what: Effect<'a>,
    ) -> Result<(), AllocError>
        ensures { OnOk result (drawing_view self.new ≡ folded breaks place (effect_view what.entry) (drawing_view self.old)) }
    {
        match what {
            Effect::Name(end) => {
                let _ = name(&mut self.participants, place.line, end)?;
                Ok(())
            }
            Effect::Rename(end) => rename(&mut self.participants, place.line, end),
            Effect::Arrow(arrow) => self.arrow(alloc, breaks, place, arrow),
            Effect::Note(at, text) => self.note(alloc, place, at, text),
            Effect::LeaveOut(kind) => self.rows.leave_out(kind, place),
            Effect::PassBy(kind) => {
                self.rows.close();
                self.rows.leave_out(kind, place)
            }
            Effect::CloseRow => {
                self.rows.close();
                Ok(())
            }
        }
    }

    /// Adds the arrow of a `return`. It is skipped if it answers no arrow.
    fn give_back(
        &mut self,
        alloc: Global,
        breaks: Breaks,
        place: Place,
        label: &[u8],
        is_beside: bool,
    ) -> Result<(), AllocError>
        ensures { OnOk result (drawing_view self.new ≡ given_back breaks place label.now is_beside (drawing_view self.old)) }
    {
        match self.activations.give_back() {
            None => self.rows.leave_out(Kind::Return, place),
            Some(ends) => {
                let sent = Sent {
                    ends,
                    form: ArrowForm::Message,
                    label,
                    is_beside,
                };
                self.rows.draw(alloc, breaks, place, sent)
            }
        }
    }

    /// Performs the action of a statement.
    pub(crate) fn perform(
        &mut self,
        alloc: Global,
        breaks: Breaks,
        place: Place,
        act: Act<'a>,
    ) -> Result<(), AllocError>
        ensures { OnOk result (drawing_view self.new ≡ done breaks place (act_view act.entry) (drawing_view self.old)) }
    {
        match act {
            Act::Draw(what) => self.draw(alloc, breaks, place, what),
            Act::Activate => self.activations.activate(),
            Act::Deactivate => {
                self.activations.deactivate();
                Ok(())
            }
            Act::Return(label, is_beside) => self.give_back(alloc, breaks, place, label, is_beside),
            Act::ArrowsActivate(they_do) => {
                self.activations.arrows_activate = they_do;
                Ok(())
            }
            Act::EndGroup => {
                self.activations.last = None;
                self.rows.close();
                Ok(())
            }
        }
    }
}
