//! Sends of several messages at once.
ghost use Rattle.std.specs.Prelude.{◌≡◌, ◌+◌, ◌-◌, ◌<◌, ◌≤◌, ℕ, List, length, map, IfOk, IfErr, OnOk, OnErr};
ghost use Rattle.chart.specs.Histories.{sent};
ghost use Rattle.chart.specs.declared.line.TheConstants.{MAX_EVENTS};
ghost use Rattle.line_recorder.specs.Recorders.{send_clock};
ghost use Rattle.line_recorder.specs.Recording.{IsRecorder};
ghost use Rattle.chart.specs.declared.history.TheConstants.{MAX_CAPACITY};
ghost use Rattle.board_table.specs.Layout.{IsBoard};
ghost use Rattle.board_table.specs.Knowing.{held, packets_out, Rests, IsFilling};
ghost use Rattle.board.specs.Known.{IsOutgoing};
ghost use Rattle.board.specs.Parts.{MayPut, HasSlots, IsUnmade};
ghost use Rattle.board.specs.Sending.{numbered};
ghost use Rattle.board.specs.SendingMany.{IsDiffTo, IsPrepared, AreFilled, AreMade};

use crate::answer::Sent;
use crate::ends::Outgoing;
use crate::error::SendError;
use crate::sending::claim_slots;
use board_table::{Lane, Packet, Seat, SharedTable, fill, fill_next, give_back_vacant, publish};
use chart::{EventNo, GrowingLine, MAX_EVENTS, Message};
use clock::{Clock, Diff};
use line_recorder::Recorder;
use std::alloc::{AllocError, Global};

/// What the sends of several messages need. All of it exists before the first send.
#[derive(Debug, Drop)]
pub(crate) struct Prepared {
    /// The difference between the first message's clock and that of the message before it on the lane.
    pub first: Diff,
    /// The answer for each send.
    pub sents: Vec<Sent>,
}

/// The line's next events, one for each message. F6: it fails only if there is no memory.
fn next_sents(
    alloc: Global,
    line: &GrowingLine,
    messages: &[Message],
) -> Result<Vec<Sent>, AllocError>
    requires { length line.now.line.events + length messages.now ≤ MAX_EVENTS }
    ensures { IfOk result (λ sents. map (λ sent. sent.event) sents.items
        ≡ numbered line.now.line.instance (length line.now.line.events + 1) messages.now) }
{
    let mut sents = Vec::with_capacity(alloc, messages.len())?;
    for place in 0..messages.len() {
        let event = EventNo {
            instance: line.instance(),
            index: (line.len() + place + 1) as u32,
        };
        sents.push_reserved(Sent { event });
    }
    Ok(sents)
}

/// Makes what the sends of these messages need, and room for them on the line.
///
/// F6: it fails only if there is no memory, and then nothing has changed.
fn prepare(
    recorder: &mut Recorder,
    base: &Clock,
    messages: &[Message],
) -> Result<Prepared, AllocError>
    requires base { length base.now ≡ length recorder.old.knowledge }
    requires some { 0 < length messages.now }
    requires room { length recorder.old.line.events + length messages.now ≤ MAX_EVENTS }
    ensures ok { IfOk result (λ it. IsPrepared base.now recorder.old messages.now it recorder.new) }
    ensures err { OnErr result (recorder.new ≡ recorder.old) }
{
    let alloc = recorder.alloc();
    let sents = next_sents(alloc, recorder.line(), messages)?;
    let mut first = Diff::none(alloc);
    recorder.ready_sends(messages.len(), base, &mut first)?;
    Ok(Prepared { first, sents })
}

/// Puts the messages into their slots and records their sends, in their order. `count` messages were put on the lane
/// before, so the first message goes into the slot after those. It carries the difference `first`. Each other message
/// differs from the one before it only in the sender's own entry. The result is the number of messages put on the lane,
/// with these.
fn fill_slots(
    words: &SharedTable,
    seat: &mut Seat,
    lane: &Lane,
    recorder: &mut Recorder,
    count: u64,
    first: Diff,
    messages: Vec<Message>,
) -> u64
    requires table { seat.old.table_id ≡ words.now.table_id }
    requires board { IsBoard lane.now.instances lane.now.capacity words.now.key words.now.table_id }
    requires slots { HasSlots lane.now (length messages.items) seat.old.me }
    requires some { 0 < length messages.items }
    requires count { count ≡ length (sent (held seat.old.me).seen lane.now.sender lane.now.receiver) }
    requires within_limit { count + length messages.items ≤ MAX_EVENTS }
    requires its { recorder.old.line.instance ≡ lane.now.sender }
    requires knows { length recorder.old.knowledge ≡ lane.now.instances }
    requires short { length recorder.old.line.events + length messages.items ≤ MAX_EVENTS }
    requires room { length messages.items ≤ recorder.old.room }
    ensures table { seat.new.table_id ≡ seat.old.table_id }
    ensures filling { IsFilling lane.now seat.new.me }
    ensures held { held seat.new.me ≡ held seat.old.me }
    ensures filled { (base : List ℕ) → IsDiffTo base first (send_clock recorder.old)
        → AreFilled base recorder.old lane.now.receiver messages.items (packets_out seat.new.me) recorder.new }
    ensures count { result ≡ count + length messages.items }
{
    let mut rest = messages.into_iter();
    let Some(message) = rest.next() else {
        unreachable!()
    };
    let name = message.name();
    let diff = first;
    fill(words, seat, lane, count, Packet { message, diff });
    recorder.send_ready(lane.receiver(), name);
    let mut put = count + 1;
    for message in rest {
        fill_next(words, seat, lane, put, recorder, message);
        put += 1;
    }
    put
}

/// Sends these messages by one store on an open lane, if the sender's line may get as many events. F11 or F6 refuses
/// them, and then they come back. All memory is there before the first message is in its slot, and no clock is copied.
pub(crate) fn send_several(
    words: &SharedTable,
    seat: &mut Seat,
    lane: &Lane,
    recorder: &mut Recorder,
    end: &mut Outgoing,
    capacity: usize,
    messages: Vec<Message>,
) -> Result<Vec<Sent>, (Vec<Message>, SendError)>
    requires table { seat.old.table_id ≡ words.now.table_id }
    requires board { IsBoard lane.now.instances lane.now.capacity words.now.key words.now.table_id }
    requires may_put { MayPut lane.now (length messages.items) seat.old.me end.old recorder.old }
    requires some { 0 < length messages.items }
    requires within_capacity { length messages.items ≤ MAX_CAPACITY }
    requires capacity { capacity ≡ lane.now.capacity }
    ensures table { seat.new.table_id ≡ seat.old.table_id }
    ensures rests { Rests lane.now.instances lane.now.capacity lane.now.sender seat.new.me }
    ensures recorder { IsRecorder lane.now.instances (held seat.new.me).seen lane.now.sender recorder.new }
    ensures end { IsOutgoing lane.now.instances (held seat.new.me).seen lane.now.sender lane.now.receiver end.new }
    ensures ok { IfOk result (λ sents. AreMade lane.now messages.items sents.items seat.old.me seat.new.me) }
    ensures err { IfErr result (λ error. (error.0.items ≡ messages.items)
        × IsUnmade lane.now (length messages.items) seat.old.me seat.new.me error.1) }
    ensures left { OnOk result (recorder.new.room ≡ recorder.old.room - length messages.items) }
    ensures kept { OnErr result (recorder.new.room ≡ recorder.old.room) }
{
    if !claim_slots(words, seat, lane, end, capacity, messages.len()) {
        return Err((messages, SendError::Full));
    }
    let prepared = match prepare(recorder, &end.base, messages.as_slice()) {
        Ok(prepared) => prepared,
        Err(AllocError) => {
            give_back_vacant(words, seat, lane);
            return Err((messages, SendError::Memory));
        }
    };
    let Prepared { first, sents } = prepared;
    end.base.apply(&first);
    end.put = fill_slots(words, seat, lane, recorder, end.put, first, messages);
    let line = recorder.line();
    end.base.stamp(line.instance(), line.len() as u32);
    publish(words, seat, lane, end.put);
    Ok(sents)
}
