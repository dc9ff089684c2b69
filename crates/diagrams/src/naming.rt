//! The names of participants and of messages.
ghost use Rattle.std.specs.Prelude.{◌≡◌, ◌≤◌, ◌<◌, ◌++◌, ◌∷◌, [], length, map, Contains, IfOk, OnOk};
ghost use Rattle.chart.specs.declared.instance.TheConstants.{MAX_INSTANCES};
ghost use Rattle.diagram_labels.specs.Labels.{with_label, name_of};
ghost use Rattle.diagrams.specs.Diagrams.{participant_view, item_view};
ghost use Rattle.diagrams.specs.Naming.{names_from, label_of, label_at, named_as, labels_from, named_from};

use crate::diagram::{Item, Participant};
use crate::message::Message;
use crate::messages::Named;
use crate::note_event::message_word;
use chart::{Name, Names, NamesError};
use diagram_labels::{GivenNames, LabelNames, spelled};
use std::alloc::{AllocError, Global};

/// Adds a name that no participant has.
fn add_name(names: &mut Names, name: Name) -> Result<(), AllocError>
    requires free { Contains names.old name → ⊥ }
    requires room { length names.old < MAX_INSTANCES }
    ensures { OnOk result (names.new ≡ names.old ++ name ∷ []) }
{
    match names.add(name) {
        Ok(_) => Ok(()),
        Err(NamesError::Memory) => Err(AllocError),
        Err(NamesError::Duplicate | NamesError::Instances) => unreachable!(),
    }
}

/// The names of the participants, which are at most as many as a chart has instances. It fails only if memory runs out
/// (F6).
pub fn names_of(alloc: Global, participants: &[Participant]) -> Result<Names, AllocError>
    requires { length participants.now ≤ MAX_INSTANCES }
    ensures { IfOk result (λ names. names ≡ names_from [] (map participant_view participants.now)) }
{
    let mut given = GivenNames::new(alloc);
    let mut names = Names::new(alloc);
    for participant in participants {
        let word = spelled(alloc, participant.label.as_slice())?;
        let name = given.give(alloc, word)?;
        add_name(&mut names, name)?;
    }
    Ok(names)
}

/// The label of an item's message.
#[tactic(auto, unfolding(crate::specs::Naming::label_of))]
fn label_of(item: &Item) -> &[u8]
    ensures { result.now ≡ label_of (item_view item.now) }
{
    match item {
        Item::Arrow(arrow) => arrow.label.as_slice(),
        Item::Note(note) => message_word(note.text.as_slice()),
    }
}

/// The label of the message of the item at this place.
fn label_at(items: &[Item], place: usize) -> &[u8]
    ensures { result.now ≡ label_at (map item_view items.now) place }
{
    match items.get(place) {
        Some(item) => label_of(item),
        None => &[],
    }
}

/// The message with its name.
fn name_message(
    alloc: Global,
    items: &[Item],
    message: &Message,
    labels: &mut LabelNames,
) -> Result<Named, AllocError>
    ensures named { IfOk result (λ named. named ≡ named_as message.now
        (name_of (with_label labels.old (label_at (map item_view items.now) message.now.item))
        (label_at (map item_view items.now) message.now.item))) }
    ensures labels { OnOk result (labels.new ≡ with_label labels.old (label_at (map item_view items.now) message.now.item)) }
{
    let label = label_at(items, message.item);
    let name = labels.name(alloc, label)?;
    Ok(Named {
        sender: message.sender,
        receiver: message.receiver,
        begins: message.begins,
        ends: message.ends,
        is_lost: message.is_lost,
        name,
    })
}

/// The messages with their names, in the order of the text.
pub fn name_messages(
    alloc: Global,
    items: &[Item],
    messages: &[Message],
    labels: &mut LabelNames,
) -> Result<Vec<Named>, AllocError>
    ensures named { IfOk result (λ named. named.items ≡ named_from labels.old (map item_view items.now) messages.now) }
    ensures labels { OnOk result (labels.new ≡ labels_from labels.old (map item_view items.now) messages.now) }
{
    let mut named = Vec::new(alloc);
    for message in messages {
        named.push(name_message(alloc, items, message, labels)?)?;
    }
    Ok(named)
}
