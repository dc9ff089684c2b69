//! Fills slots with messages that are sent directly after another one.
ghost use Rattle.std.specs.Prelude.{◌≡◌, ◌≢◌, ◌+◌, ◌<◌, ◌≤◌, [], ◌∷◌, ◌++◌, length, suc, None, IfSome, IsSome};
ghost use Rattle.chart.specs.Histories.{sent};
ghost use Rattle.chart.specs.declared.line.TheConstants.{MAX_EVENTS};
ghost use Rattle.clock.specs.Clocks.{entry_of};
ghost use Rattle.line_recorder.specs.Recorders.{send_clock, after_send};
ghost use Rattle.board_table.specs.declared.packet.Packet.{Packet};
ghost use Rattle.board_table.specs.Layout.{IsBoard};
ghost use Rattle.board_table.specs.Carrying.{Carries};
ghost use Rattle.board_table.specs.Knowing.{held, packets_out, vacant_out, IsFilling};

use crate::{Lane, Packet, Seat, SharedTable};
use chart::{InstanceNo, Message};
use clock::Diff;
use line_recorder::Recorder;

/// Puts a message into an empty slot, and records its send, which comes directly after another send. The message's
/// difference is made in the slot: what changed since that send.
#[inline(always)]
fn put_next(slot: &mut Option<Packet>, recorder: &mut Recorder, to: InstanceNo, message: Message)
    requires vacant { slot.old ≡ None }
    requires not_itself { to ≢ recorder.old.line.instance }
    requires short { length recorder.old.line.events < MAX_EVENTS }
    requires ready { 0 < recorder.old.room }
    requires known { entry_of recorder.old.knowledge recorder.old.line.instance ≤ length recorder.old.line.events }
    ensures full { IsSome slot.new }
    ensures put { IfSome slot.new (λ packet. Carries recorder.old.knowledge packet
        (record { message = message; clock = send_clock recorder.old })) }
    ensures recorder { recorder.new ≡ after_send recorder.old to message.name }
{
    // So the compiler knows that the slot is empty, and emits no code that drops an old value.
    let None = slot else { unreachable!() };
    let name = message.name();
    let diff = Diff::none(recorder.alloc());
    *slot = Some(Packet { message, diff });
    let Some(packet) = slot else { unreachable!() };
    recorder.send_next(to, name, &mut packet.diff);
    // The prover knows what was written through the packet only after the packet is read again.
    let _changes = packet.diff.len();
}

/// Puts a message into the first empty slot, and records its send, which comes directly after another send. `count`
/// messages were put on the lane before this one. With the room that was made on the line the send isn't refused, and
/// takes no memory.
#[inline(always)]
pub fn fill_next(
    words: &SharedTable,
    seat: &mut Seat,
    lane: &Lane,
    count: u64,
    recorder: &mut Recorder,
    message: Message,
)
    requires table { seat.old.table_id ≡ words.now.table_id }
    requires board { IsBoard lane.now.instances lane.now.capacity words.now.key words.now.table_id }
    requires filling { IsFilling lane.now seat.old.me }
    requires room { 0 < vacant_out seat.old.me }
    requires count { count ≡ length (sent (held seat.old.me).seen lane.now.sender lane.now.receiver)
        + length (packets_out seat.old.me) }
    requires its { recorder.old.line.instance ≡ lane.now.sender }
    requires short { length recorder.old.line.events < MAX_EVENTS }
    requires ready { 0 < recorder.old.room }
    requires known { entry_of recorder.old.knowledge recorder.old.line.instance ≤ length recorder.old.line.events }
    ensures table { (seat.new.table_id ≡ seat.old.table_id) × (seat.new.id ≡ seat.old.id) }
    ensures filling { IsFilling lane.now seat.new.me }
    ensures held { held seat.new.me ≡ held seat.old.me }
    ensures packet { (x : Packet) × (packets_out seat.new.me ≡ packets_out seat.old.me ++ x ∷ [])
        × Carries recorder.old.knowledge x (record { message = message; clock = send_clock recorder.old }) }
    ensures vacant { suc (vacant_out seat.new.me) ≡ vacant_out seat.old.me }
    ensures recorder { recorder.new ≡ after_send recorder.old lane.now.receiver message.name }
{
    let slot = seat.slot_mut(words, lane.slot(count));
    put_next(slot, recorder, lane.receiver(), message);
    seat.turn();
}
