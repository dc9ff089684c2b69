//! The messages of joined lines.
ghost use Rattle.std.specs.Prelude.{◌≡◌, ◌≤◌, length, map, IfOk};
ghost use Rattle.chart.specs.declared.instance.TheConstants.{MAX_INSTANCES};
ghost use Rattle.diagrams.specs.Diagrams.{participant_view};
ghost use Rattle.diagram_join.specs.Joins.{join_view};
ghost use Rattle.diagram_join.specs.Joined.{joined_view, joined_of, joined, Gives};

use crate::error::JoinError;
use crate::instances::{is_misnamed, listed, names_of, processes_of, taken};
use crate::join::Join;
use crate::moves::{Overtaking, across, all_moved, leave_out_within, without_overtaking};
use chart::{Name, Names};
use diagrams::{LeftOut, Message, Participant, without_lost};
use std::alloc::{AllocError, Global};

/// The result of joining lines.
#[derive(Drop)]
pub struct Joined {
    /// The instances' names, each at the place of the first of its lines.
    pub names: Names,
    /// The messages that stay, from instance to instance.
    pub messages: Vec<Message>,
    /// The skipped constructs: one entry for each kind.
    pub left_out: Vec<LeftOut>,
    /// Messages that are skipped because they overtake another one.
    pub overtaking: Vec<Overtaking>,
}

/// The messages of lines that belong to these instances.
#[tactic(auto, unfolding(crate::specs::Joined::joined_of))]
fn joined_of(
    alloc: Global,
    processes: &[Name],
    messages: &[Message],
    left_out: Vec<LeftOut>,
) -> Result<Joined, AllocError>
    requires { length processes.now ≤ MAX_INSTANCES }
    ensures { IfOk result (λ j. joined_view j ≡ joined_of processes.now messages.now left_out.items) }
{
    let names = names_of(alloc, processes)?;
    let moved = all_moved(alloc, &names, processes, messages)?;
    let mut left_out = left_out;
    leave_out_within(&moved, &mut left_out)?;
    let across = across(alloc, &moved)?;
    let passed = without_overtaking(alloc, &across)?;
    let messages = without_lost(alloc, &passed.stays, &mut left_out)?;
    Ok(Joined {
        names,
        messages,
        left_out,
        overtaking: passed.overtakings,
    })
}

/// Joins lines of a diagram with these names and messages. The first of F34 and F22 that applies refuses it. F6 may
/// come at any point.
///
/// Each message goes from the sender's instance to the receiver's, and keeps its rows. Three kinds of messages are
/// skipped. The first are messages within one instance. The second would be received above an earlier message of their
/// new lane. Each of these is reported with the line of the first message that it overtakes. The third are lost
/// messages with a later message of their new lane that is received.
#[tactic(auto, unfolding(crate::specs::Joined::joined))]
pub fn join_lines(
    alloc: Global,
    participants: &[Participant],
    names: &Names,
    joins: &[Join<'_>],
    messages: &[Message],
    left_out: Vec<LeftOut>,
) -> Result<Joined, JoinError>
    ensures { Gives joined_view result (joined (map participant_view participants.now) names.now (map join_view joins.now)
        messages.now left_out.items) }
{
    let lines = listed(alloc, names)?;
    if is_misnamed(alloc, joins, &lines)? {
        return Err(JoinError::NoSuchLine);
    }
    if let Some(line) = taken(joins, &lines, participants) {
        return Err(JoinError::Taken(line));
    }
    let processes = processes_of(alloc, joins, &lines)?;
    let joined = joined_of(alloc, &processes, messages, left_out)?;
    Ok(joined)
}
