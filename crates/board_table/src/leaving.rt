//! How a post leaves its board with the messages that wait for it.
ghost use Rattle.std.specs.Prelude.{◌≡◌, ◌≤◌, [], ◌∷◌, ◌++◌, Some, None};
ghost use Rattle.atomic_table.specs.Table.{rest};
ghost use Rattle.board_table.specs.Layout.{IsBoard, slot_of};
ghost use Rattle.board_table.specs.Knowing.{held, Rests};
ghost use Rattle.board_table.specs.Leaving.{Leaves};

use crate::rule::Leave;
use crate::{Lane, Packet, Seat, SharedTable};
use chart::Message;

/// Lets a post leave its board: it makes no further step. The slots of all messages that wait for it, in what it has
/// seen, go with its seat, sorted by sender. The call takes no memory.
pub fn leave(words: &SharedTable, seat: &mut Seat)
    requires table { seat.old.table_id ≡ words.now.table_id }
    requires board { IsBoard (held seat.old.me).instances (held seat.old.me).capacity words.now.key words.now.table_id }
    requires capacity { 1 ≤ (held seat.old.me).capacity }
    requires number { (1 ≤ (held seat.old.me).number) × ((held seat.old.me).number ≤ (held seat.old.me).instances) }
    requires rests { Rests (held seat.old.me).instances (held seat.old.me).capacity
        (held seat.old.me).number seat.old.me }
    ensures table { seat.new.table_id ≡ seat.old.table_id }
    ensures leaves { Leaves seat.old.me seat.new.me }
{
    words.load::<Leave>(seat, 0);
}

/// Takes the message out of the first slot that went with the seat. It is the slot of the lane's message before which
/// `count` were sent. The slot is then the last of the slots.
pub fn take_out(words: &SharedTable, seat: &mut Seat, lane: &Lane, count: u64) -> Message
    requires table { seat.old.table_id ≡ words.now.table_id }
    requires first { (x : Packet)
        × (seat.old.me.1 ≡ (
          slot_of lane.now.instances lane.now.capacity lane.now.sender lane.now.receiver count,
          Some x,
        ) ∷ rest seat.old.me.1) }
    ensures table { seat.new.table_id ≡ seat.old.table_id }
    ensures drained { (x : Packet)
        × (seat.old.me.1 ≡ (
          slot_of lane.now.instances lane.now.capacity lane.now.sender lane.now.receiver count,
          Some x,
        ) ∷ rest seat.old.me.1) × (result ≡ x.message) }
    ensures turned { seat.new.me.1 ≡ rest seat.old.me.1
        ++ (slot_of lane.now.instances lane.now.capacity lane.now.sender lane.now.receiver count, None) ∷ [] }
{
    let Some(packet) = words.exchange(seat, lane.slot(count), None) else {
        unreachable!()
    };
    seat.turn();
    let Packet { message, diff: _ } = packet;
    message
}
