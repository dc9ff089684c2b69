//! Messages on the lanes between instances.
ghost use Rattle.std.specs.Prelude.{◌≡◌, ◌++◌, [], map, filter, position, List, IfOk, Some, ◌∷◌};
ghost use Rattle.diagrams.specs.Crossing.{overtakes};
ghost use Rattle.diagrams.specs.Ends.{AreFurthest};
ghost use Rattle.diagrams.specs.declared.message.Message.{Message};
ghost use Rattle.diagram_join.specs.Moves.{instance_at, moved, is_across, with_within, line_at, overtaken_in, staying, staying_from, overtaking, overtaking_from};

use chart::{InstanceNo, Name, Names};
use diagrams::{Kind, Lanes, LeftOut, Message, Place, crosses, leave_out, overtakes};
use std::alloc::{AllocError, Global};

/// A message that overtakes: it would be received above an earlier one of its lane.
#[derive(Clone, Copy, Debug)]
pub struct Overtaking {
    pub place: Place,
    /// The line of the first message that it overtakes.
    pub overtaken: u64,
}

/// The instance of a line, by the names of the instances and those of the lines' instances.
fn instance_at(names: &Names, processes: &[Name], line: InstanceNo) -> InstanceNo
    ensures { result ≡ instance_at names.now processes.now line }
{
    match processes.get(line.place()) {
        Some(process) => match names.instance(*process) {
            Some(instance) => instance,
            None => line,
        },
        None => line,
    }
}

/// The message, from the sender's instance to the receiver's.
fn moved(names: &Names, processes: &[Name], message: &Message) -> Message
    ensures { result ≡ moved names.now processes.now message.now }
{
    let mut moved = *message;
    moved.sender = instance_at(names, processes, message.sender);
    moved.receiver = instance_at(names, processes, message.receiver);
    moved
}

/// The messages, each from the sender's instance to the receiver's.
pub(crate) fn all_moved(
    alloc: Global,
    names: &Names,
    processes: &[Name],
    messages: &[Message],
) -> Result<Vec<Message>, AllocError>
    ensures { IfOk result (λ v. v.items ≡ map (moved names.now processes.now) messages.now) }
{
    messages
        .iter()
        .map(|message| moved(names, processes, message))
        .collect(alloc)
}

fn is_across(message: &Message) -> bool
    ensures { result ≡ is_across message.now }
{
    message.sender != message.receiver
}

/// The messages from one instance to another.
pub(crate) fn across(alloc: Global, messages: &[Message]) -> Result<Vec<Message>, AllocError>
    ensures { IfOk result (λ v. v.items ≡ filter is_across messages.now) }
{
    messages
        .iter()
        .copied()
        .filter(|message| is_across(message))
        .collect(alloc)
}

/// Skips the messages from an instance to itself.
#[tactic(auto, unfolding(crate::specs::Moves::with_within))]
pub(crate) fn leave_out_within(
    messages: &[Message],
    left_out: &mut Vec<LeftOut>,
) -> Result<(), AllocError>
    ensures { IfOk result (λ _. left_out.new.items ≡ with_within left_out.old.items messages.now) }
{
    let mut rest = messages;
    'messages: while let [message, others @ ..] = rest {
        if !is_across(message) {
            leave_out(left_out, Kind::MessageWithin, message.place)?;
        }
        rest = others;
    }
    Ok(())
}

fn place_overtaken(before: &[Message], message: &Message) -> Option<usize>
    ensures { result ≡ position (overtakes message.now) before.now }
{
    before.iter().position(|other| overtakes(message, other))
}

/// The line of the first of these messages that a message overtakes.
fn overtaken_in(before: &[Message], message: &Message) -> Option<u64>
    ensures { result ≡ overtaken_in before.now message.now }
{
    match place_overtaken(before, message) {
        Some(place) => line_at(before, place),
        None => None,
    }
}

fn line_at(messages: &[Message], place: usize) -> Option<u64>
    ensures { result ≡ line_at messages.now (Some place) }
{
    match messages.get(place) {
        Some(message) => Some(message.place.line),
        None => None,
    }
}

/// Keeps a message that overtakes none of the earlier ones, and reports any other. For each lane the table has the row
/// furthest down in which an earlier message is received.
fn pass(
    furthest: &mut Lanes,
    before: &[Message],
    message: &Message,
    stays: &mut Vec<Message>,
    overtakings: &mut Vec<Overtaking>,
) -> Result<(), AllocError>
    ensures stays { AreFurthest furthest.old before.now
        → IfOk result (λ _. stays.new.items ≡ stays.old.items ++ staying before.now message.now) }
    ensures overtakings { AreFurthest furthest.old before.now
        → IfOk result (λ _. overtakings.new.items ≡ overtakings.old.items ++ overtaking before.now message.now) }
    ensures furthest { AreFurthest furthest.old before.now → AreFurthest furthest.new (before.now ++ message.now ∷ []) }
{
    if !crosses(furthest, message) {
        stays.push(*message)?;
        return Ok(());
    }
    if let Some(overtaken) = overtaken_in(before, message) {
        overtakings.push(Overtaking {
            place: message.place,
            overtaken,
        })?;
    }
    Ok(())
}

/// The messages that stay, and those that overtake another one.
#[derive(Drop)]
pub(crate) struct Passed {
    pub stays: Vec<Message>,
    pub overtakings: Vec<Overtaking>,
}

/// The messages that overtake none of the earlier ones, and those that overtake one.
pub(crate) fn without_overtaking(alloc: Global, messages: &[Message]) -> Result<Passed, AllocError>
    ensures stays { IfOk result (λ p. p.stays.items ≡ staying_from [] messages.now) }
    ensures overtakings { IfOk result (λ p. p.overtakings.items ≡ overtaking_from [] messages.now) }
{
    let mut furthest = Lanes::zeros(alloc)?;
    let mut stays = Vec::new(alloc);
    let mut overtakings = Vec::new(alloc);
    for (place, message) in messages.iter().enumerate() {
        pass(
            &mut furthest,
            &messages[..place],
            message,
            &mut stays,
            &mut overtakings,
        )?;
    }
    Ok(Passed { stays, overtakings })
}
