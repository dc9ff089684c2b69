//! The messages of a diagram's chart, and their turns.
ghost use Rattle.std.specs.Prelude.{◌≡◌, map, IfOk};
ghost use Rattle.diagrams.specs.Diagrams.{diagram_view, participant_view};
ghost use Rattle.diagram_join.specs.Joins.{join_view};
ghost use Rattle.diagrams.specs.Losing.{kept};
ghost use Rattle.diagram_join.specs.Joined.{joined};
ghost use Rattle.diagram_join.specs.Turns.Diagrams.{stay_of, messages_by, messages_of, turns_in};

use crate::turns::moments::turns_of;
use crate::{Join, JoinError, join_lines};
use chart::{InstanceNo, Names};
use diagrams::{
    Diagram, LeftOut, Message, Participant, collect, has_no_chart, names_of, without_lost,
};
use std::alloc::{AllocError, Global};

/// The messages that stay without joins.
fn stay_alone(
    alloc: Global,
    messages: &[Message],
    left_out: Vec<LeftOut>,
) -> Result<Vec<Message>, AllocError>
    ensures { IfOk result (λ stay. stay.items ≡ kept messages.now) }
{
    let mut left_out = left_out;
    without_lost(alloc, messages, &mut left_out)
}

/// The messages that stay with these joins, or none if the joins are refused.
fn stay_joined(
    alloc: Global,
    participants: &[Participant],
    names: &Names,
    joins: &[Join<'_>],
    messages: &[Message],
    left_out: Vec<LeftOut>,
) -> Result<Vec<Message>, AllocError>
    ensures { IfOk result (λ stay. stay.items ≡ stay_of (joined (map participant_view participants.now) names.now
        (map join_view joins.now) messages.now left_out.items)) }
{
    let joined = match join_lines(alloc, participants, names, joins, messages, left_out) {
        Ok(joined) => joined,
        Err(JoinError::Memory) => return Err(AllocError),
        Err(_) => return Ok(Vec::new(alloc)),
    };
    Ok(joined.messages)
}

/// The messages that stay in the diagram's chart, with these joins.
fn messages_by(
    alloc: Global,
    participants: &[Participant],
    names: &Names,
    joins: &[Join<'_>],
    messages: &[Message],
    left_out: Vec<LeftOut>,
) -> Result<Vec<Message>, AllocError>
    ensures { IfOk result (λ stay. stay.items ≡ messages_by (map participant_view participants.now) (map join_view joins.now)
        names.now messages.now left_out.items) }
{
    match joins {
        [] => stay_alone(alloc, messages, left_out),
        _ => stay_joined(alloc, participants, names, joins, messages, left_out),
    }
}

/// The messages of a diagram's chart with these joins, in the order of its text. There are none if the joins are
/// refused, or if the diagram has too few participants for a chart, or too many. F6 is the only refusal.
pub fn messages_of(
    alloc: Global,
    diagram: Diagram,
    joins: &[Join<'_>],
) -> Result<Vec<Message>, AllocError>
    ensures { IfOk result (λ messages. messages.items ≡ messages_of (diagram_view diagram) (map join_view joins.now)) }
{
    let Diagram {
        participants,
        items,
        left_out,
    } = diagram;
    if has_no_chart(participants.len()) {
        return Ok(Vec::new(alloc));
    }
    let names = names_of(alloc, &participants)?;
    let (messages, left_out, _fault) = collect(alloc, &names, &items, left_out)?.into_parts();
    let stay = messages_by(alloc, &participants, &names, joins, &messages, left_out)?;
    Ok(stay)
}

/// The turns of a diagram with these joins, from the top. They are those of its chart, unless the chart is refused. F6
/// is the only refusal. The time is in proportion to n log n for n items.
pub fn turns_in(
    alloc: Global,
    diagram: Diagram,
    joins: &[Join<'_>],
) -> Result<Vec<InstanceNo>, AllocError>
    ensures { IfOk result (λ turns. turns.items ≡ turns_in (diagram_view diagram) (map join_view joins.now)) }
{
    let messages = messages_of(alloc, diagram, joins)?;
    turns_of(alloc, &messages)
}
