//! The messages of a diagram, item by item from the top.
ghost use Rattle.std.specs.Prelude.{◌≡◌, ◌<◌, suc, length, map, position, slice_get, IfOk, OnOk, IfSome};
ghost use Rattle.diagrams.specs.Collecting.{first_line, with_arrow, with_send, waits, received_at, with_received, with_receive, with_event, with_note};
ghost use Rattle.diagrams.specs.Collecting.{with_item, collected, nothing};
ghost use Rattle.diagrams.specs.Diagrams.{arrow_view, note_view, item_view};

use crate::diagram::{Arrow, Item, Note};
use crate::left_out::{Kind, LeftOut, leave_out};
use crate::message::{Message, Waiting};
use crate::note_event::{NoteEvent, note_event};
use crate::placing::first_misplaced;
use chart::{InstanceNo, MAX_INSTANCES, Names};
use std::alloc::{AllocError, Global};
use std::marker::Model;

/// The messages of the items so far. A contract sees a record of its fields.
#[derive(Drop)]
pub struct Collected {
    messages: Vec<Message>,
    /// The messages of notes that wait for their receives.
    waiting: Vec<Waiting>,
    left_out: Vec<LeftOut>,
    /// The first line with which no chart is possible.
    fault: Option<u64>,
}

impl Model for Collected {
    ghost use Rattle.diagrams.specs.Collecting.{CollectedView};

    ghost Value = { CollectedView };

    ghost view = { λ c. record {
      messages = c.messages.items;
      waiting = c.waiting.items;
      left_out = c.left_out.items;
      fault = c.fault;
    } };
}

/// The upper one of two lines: the one so far, if there is one, and this one.
pub(crate) fn first_line(so_far: Option<u64>, line: u64) -> Option<u64>
    ensures { result ≡ first_line so_far line }
{
    match so_far {
        None => Some(line),
        Some(first) => {
            if line < first {
                Some(line)
            } else {
                Some(first)
            }
        }
    }
}

/// The instance of the participant at this place. A diagram of more than [`MAX_INSTANCES`] is refused earlier.
fn instance_at(place: usize) -> Result<InstanceNo, AllocError>
    ensures { IfOk result (λ p. p ≡ suc place) }
{
    if place >= MAX_INSTANCES {
        return Err(AllocError);
    }
    Ok(InstanceNo::at_place(place))
}

/// Whether the message waits for this receive.
fn waits(waiting: &Waiting, receiver: InstanceNo, event: &NoteEvent) -> bool
    ensures { result ≡ waits receiver event.now waiting.now }
{
    waiting.sender == event.partner && waiting.receiver == receiver && waiting.name == event.name
}

/// The place of the first message that waits for this receive.
fn first_waiting(waiting: &[Waiting], receiver: InstanceNo, event: &NoteEvent) -> Option<usize>
    ensures value { result ≡ position (waits receiver event.now) waiting.now }
    ensures within { IfSome result (λ place. place < length waiting.now) }
{
    waiting.iter().position(|w| waits(w, receiver, event))
}

/// Marks the message at this place as received at the note.
fn receive(messages: &mut Vec<Message>, place: usize, note: &Note)
    ensures { messages.new.items ≡ received_at (note_view note.now) messages.old.items place (slice_get messages.old.items place) }
{
    if place >= messages.len() {
        return;
    }
    let mut message = messages[place];
    message.ends = note.row;
    message.is_lost = false;
    message.whole = note.place.line;
    messages[place] = message;
}

impl Collected {
    /// Adds the message of an arrow.
    fn add_arrow(&mut self, item: usize, arrow: &Arrow) -> Result<(), AllocError>
        ensures { OnOk result (self.new ≡ with_arrow item (arrow_view arrow.now) self.old) }
    {
        let message = Message {
            sender: instance_at(arrow.sender)?,
            receiver: instance_at(arrow.receiver)?,
            line: instance_at(arrow.receiver)?,
            begins: arrow.begins,
            ends: arrow.ends,
            is_lost: arrow.is_lost,
            item,
            place: arrow.place,
            whole: arrow.place.line,
        };
        self.messages.push(message)?;
        Ok(())
    }

    /// Adds the message of a note that states a send. It waits for its receive.
    fn add_send(
        &mut self,
        item: usize,
        own: InstanceNo,
        note: &Note,
        event: &NoteEvent,
    ) -> Result<(), AllocError>
        requires { own ≡ suc note.now.participant }
        ensures { OnOk result (self.new ≡ with_send item (note_view note.now) event.now self.old) }
    {
        self.waiting.push(Waiting {
            sender: own,
            receiver: event.partner,
            name: event.name,
            message: self.messages.len(),
        })?;
        self.messages.push(Message {
            sender: own,
            receiver: event.partner,
            line: event.partner,
            begins: note.row,
            ends: note.row,
            is_lost: true,
            item,
            place: note.place,
            whole: note.place.line,
        })?;
        Ok(())
    }

    /// Marks the message that waits at this place as received at the note. It no longer waits.
    fn take(&mut self, at: usize, note: &Note)
        requires { at < length self.old.waiting }
        ensures { self.new ≡ with_received (note_view note.now) at (slice_get self.old.waiting at) self.old }
    {
        let message = self.waiting[at].message;
        receive(&mut self.messages, message, note);
        let _ = self.waiting.remove(at);
    }

    /// Adds a note that states a receive. If no message waits for it, no chart is possible with its line.
    fn add_receive(&mut self, own: InstanceNo, note: &Note, event: &NoteEvent)
        requires { own ≡ suc note.now.participant }
        ensures { self.new ≡ with_receive (note_view note.now) event.now self.old }
    {
        match first_waiting(self.waiting.as_slice(), own, event) {
            None => self.fault = first_line(self.fault, note.place.line),
            Some(at) => self.take(at, note),
        }
    }

    /// Adds a note: its event, or one more skipped note.
    fn add_note(&mut self, names: &Names, item: usize, note: &Note) -> Result<(), AllocError>
        ensures { OnOk result (self.new ≡ with_note names.now item (note_view note.now) self.old) }
    {
        let own = instance_at(note.participant)?;
        match note_event(names, own, note.text.as_slice()) {
            None => leave_out(&mut self.left_out, Kind::Note, note.place),
            Some(event) => {
                if event.sends {
                    self.add_send(item, own, note, &event)
                } else {
                    self.add_receive(own, note, &event);
                    Ok(())
                }
            }
        }
    }

    /// Adds an item.
    #[tactic(auto, unfolding(crate::specs::Collecting::with_item))]
    fn add(&mut self, names: &Names, item: usize, words: &Item) -> Result<(), AllocError>
        ensures { OnOk result (self.new ≡ with_item names.now item (item_view words.now) self.old) }
    {
        match words {
            Item::Arrow(arrow) => self.add_arrow(item, arrow),
            Item::Note(note) => self.add_note(names, item, note),
        }
    }
}

impl Collected {
    /// The messages, the skipped constructs, and the first line with which no chart is possible.
    pub fn into_parts(self) -> (Vec<Message>, Vec<LeftOut>, Option<u64>)
        ensures messages { result.0.items ≡ self.messages }
        ensures left_out { result.1.items ≡ self.left_out }
        ensures fault { result.2 ≡ self.fault }
    {
        let Collected {
            messages,
            waiting: _,
            left_out,
            fault,
        } = self;
        (messages, left_out, fault)
    }
}

/// The messages of a diagram's items. These names are those of its participants.
pub fn collect(
    alloc: Global,
    names: &Names,
    items: &[Item],
    left_out: Vec<LeftOut>,
) -> Result<Collected, AllocError>
    ensures { IfOk result (λ c. c ≡ collected names.now (map item_view items.now) left_out.items) }
{
    let mut collected = Collected {
        messages: Vec::new(alloc),
        waiting: Vec::new(alloc),
        left_out,
        fault: first_misplaced(names.len(), items),
    };
    for (number, item) in items.iter().enumerate() {
        collected.add(names, number, item)?;
    }
    Ok(collected)
}
