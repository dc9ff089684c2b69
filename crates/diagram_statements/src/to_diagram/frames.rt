//! Open groups and boxes, and the branches that are taken.
ghost use Rattle.std.specs.Prelude.{◌≡◌, ◌∷◌, ◌++◌, [], option_map};
ghost use Rattle.diagram_statements.specs.ToDiagram.Acts.{act_view, act_of};
ghost use Rattle.diagram_statements.specs.ToDiagram.Frames.{top_frame, is_taken, is_parallel, is_break, begun_kind, if_taken, branched, ended, framed};
ghost use Rattle.diagram_statements.specs.ToDiagram.Frames.{Frames};
ghost use Rattle.diagram_statements.specs.Statements.{statement_view, element_view};

use crate::to_diagram::act::{Act, Effect};
use crate::{Element, Fault, Group, Place, ReadError, Statement};
use diagrams::Kind;

/// The kind of an open group or box.
#[derive(Clone, Copy, Debug)]
pub(crate) enum FrameKind {
    Box,
    Group(Group),
}

/// An open group or box.
#[derive(Clone, Copy, Debug)]
pub(crate) struct Frame {
    pub kind: FrameKind,
    /// Whether the statements of its present branch are taken. If so, those around it are too.
    pub is_taken: bool,
}

/// The innermost frame.
fn top_frame(frames: &[Frame]) -> Option<Frame>
    ensures { result ≡ top_frame frames.now }
{
    match frames {
        [] => None,
        [.., last] => Some(*last),
    }
}

/// Whether a statement is taken within these frames.
#[tactic(auto, unfolding(crate::specs::ToDiagram::Frames::is_taken))]
fn is_taken(frames: &[Frame]) -> bool
    ensures { result ≡ is_taken frames.now }
{
    match top_frame(frames) {
        Some(frame) => frame.is_taken,
        None => true,
    }
}

/// Whether the branches of a group are parallel.
fn is_parallel(group: Group) -> bool
    ensures { result ≡ is_parallel group }
{
    match group {
        Group::Parallel => true,
        Group::Break | Group::Choice => false,
    }
}

fn is_break(group: Group) -> bool
    ensures { result ≡ is_break group }
{
    match group {
        Group::Break => true,
        Group::Parallel | Group::Choice => false,
    }
}

/// The kind under which the beginning of a group is skipped.
fn begun_kind(group: Group) -> Kind
    ensures { result ≡ begun_kind group }
{
    if is_break(group) {
        Kind::Branch
    } else {
        Kind::Frame
    }
}

/// An action, if it is taken.
fn if_taken(taken: bool, act: Act<'_>) -> Option<Act<'_>>
    ensures { option_map act_view result ≡ if_taken taken (act_view act.entry) }
{
    if taken { Some(act) } else { None }
}

/// The action of a statement that leaves the frames as they are.
fn act_of(element: Element<'_>) -> Option<Act<'_>>
    ensures { option_map act_view result ≡ act_of (element_view element.entry) }
{
    match element {
        Element::Named(end) => Some(Act::Draw(Effect::Name(end))),
        Element::Renamed(end) => Some(Act::Draw(Effect::Rename(end))),
        Element::Arrow(arrow) => Some(Act::Draw(Effect::Arrow(arrow))),
        Element::Note { at, text } => Some(Act::Draw(Effect::Note(at, text))),
        Element::Activate => Some(Act::Activate),
        Element::Deactivate => Some(Act::Deactivate),
        Element::Return { label, is_beside } => Some(Act::Return(label, is_beside)),
        Element::ArrowsActivate(they_do) => Some(Act::ArrowsActivate(they_do)),
        Element::Box => Some(Act::Draw(Effect::LeaveOut(Kind::Box))),
        Element::Divider => Some(Act::Draw(Effect::PassBy(Kind::Divider))),
        Element::Delay => Some(Act::Draw(Effect::PassBy(Kind::Delay))),
        Element::Reference => Some(Act::Draw(Effect::PassBy(Kind::Reference))),
        Element::Begin(_) | Element::Branch | Element::End | Element::BeginBox => None,
        Element::Preprocessor | Element::OtherDiagram => None,
    }
}

/// Begins a group or a box.
fn begin<'a>(
    frames: &mut Vec<Frame>,
    kind: FrameKind,
    is_taken: bool,
    act: Option<Act<'a>>,
) -> Result<Option<Act<'a>>, ReadError>
    ensures { Frames result frames.new.items
        (Ok (frames.old.items ++ record { kind = kind; is_taken = is_taken } ∷ [], option_map act_view act.entry)) }
{
    frames.push(Frame { kind, is_taken })?;
    Ok(act)
}

/// Begins another branch of the innermost group.
#[tactic(auto, unfolding(crate::specs::ToDiagram::Frames::branched, crate::specs::ToDiagram::Frames::is_taken))]
fn branch<'a>(frames: &mut Vec<Frame>, place: Place) -> Result<Option<Act<'a>>, ReadError>
    ensures { Frames result frames.new.items (branched place frames.old.items) }
{
    let Some(frame) = frames.pop() else {
        return Err(ReadError::Fault(Fault::NotRead(place)));
    };
    let FrameKind::Group(group) = frame.kind else {
        return Err(ReadError::Fault(Fault::NotRead(place)));
    };
    let around = is_taken(frames);
    let parallel = is_parallel(group);
    let folded = if parallel {
        Effect::CloseRow
    } else {
        Effect::PassBy(Kind::Branch)
    };
    let act = if_taken(around, Act::Draw(folded));
    begin(frames, frame.kind, around && parallel, act)
}

/// Ends the innermost group or box.
#[tactic(auto, unfolding(crate::specs::ToDiagram::Frames::ended, crate::specs::ToDiagram::Frames::is_taken))]
fn end<'a>(frames: &mut Vec<Frame>, place: Place) -> Result<Option<Act<'a>>, ReadError>
    ensures { Frames result frames.new.items (ended place frames.old.items) }
{
    let Some(_) = frames.pop() else {
        return Err(ReadError::Fault(Fault::NotRead(place)));
    };
    Ok(if_taken(is_taken(frames), Act::EndGroup))
}

/// The action of a statement within these frames, if it has one. The frames are then those after it.
#[tactic(auto, unfolding(crate::specs::ToDiagram::Frames::framed))]
pub(crate) fn framed<'a>(
    frames: &mut Vec<Frame>,
    statement: &Statement<'a>,
) -> Result<Option<Act<'a>>, ReadError>
    ensures { Frames result frames.new.items (framed frames.old.items (statement_view statement.now)) }
{
    let taken = is_taken(frames);
    match statement.element {
        Element::Begin(group) => {
            let act = if_taken(taken, Act::Draw(Effect::PassBy(begun_kind(group))));
            begin(
                frames,
                FrameKind::Group(group),
                taken && !is_break(group),
                act,
            )
        }
        Element::BeginBox => {
            let act = if_taken(taken, Act::Draw(Effect::LeaveOut(Kind::Box)));
            begin(frames, FrameKind::Box, taken, act)
        }
        Element::Branch => branch(frames, statement.place),
        Element::End => end(frames, statement.place),
        Element::Preprocessor => Ok(Some(Act::Draw(Effect::LeaveOut(Kind::Preprocessor)))),
        Element::OtherDiagram => Ok(Some(Act::Draw(Effect::LeaveOut(Kind::Diagram)))),
        element => { if taken { Ok(act_of(element)) } else { Ok(None) } }
    }
}
