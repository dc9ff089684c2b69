//! The steps of a lane's sender.
ghost use Rattle.std.specs.Prelude.{◌≡◌, ℕ, ◌+◌, ◌<◌, ◌≤◌, ◌≢◌, false, [], ◌∷◌, ◌++◌, length, suc, None};
ghost use Rattle.std.specs.Prelude.{IfErr, IfSome, IsOk, IsSome, OnErr, OnOk};
ghost use Rattle.chart.specs.Histories.{sent, is_closed, chart_of};
ghost use Rattle.chart.specs.declared.line.TheConstants.{MAX_EVENTS};
ghost use Rattle.clock.specs.declared.clock.TheConstants.{INLINE_ENTRIES};
ghost use Rattle.clock.specs.Diffs.{AgreeBut};
ghost use Rattle.line_recorder.specs.Recorders.{send_clock, begun_send};
ghost use Rattle.board_table.specs.declared.packet.Packet.{Packet};
ghost use Rattle.board_table.specs.Layout.{IsBoard};
ghost use Rattle.board_table.specs.Carrying.{AreNext, Carries, sent_base};
ghost use Rattle.board_table.specs.Knowing.{held, packets_out, vacant_out, Rests, IsFilling};
ghost use Rattle.board_table.specs.Plays.{ClaimsAnew, ClaimsAgain, Publishes, Closes, PutsBack};

use crate::rule::{ClaimAgain, ClaimAnew, CloseLane, Publish, PutBackFilling, Site};
use crate::{Lane, Packet, Seat, SharedTable};
use chart::Message;
use clock::{Clock, Diff};
use line_recorder::Recorder;
use std::marker::Brand;

/// Takes all free slots, by a look at the number of received messages, which it returns.
#[inline(always)]
pub fn claim_anew(words: &SharedTable, seat: &mut Seat, lane: &Lane) -> u64
    requires table { seat.old.table_id ≡ words.now.table_id }
    requires board { IsBoard lane.now.instances lane.now.capacity words.now.key words.now.table_id }
    requires rests { Rests lane.now.instances lane.now.capacity lane.now.sender seat.old.me }
    ensures table { (seat.new.table_id ≡ seat.old.table_id) × (seat.new.id ≡ seat.old.id) }
    ensures claims { ClaimsAnew lane.now seat.old.me result seat.new.me }
{
    claim_anew_at::<Brand>(words, seat, lane)
}

#[inline(always)]
fn claim_anew_at<A: Site>(words: &SharedTable, seat: &mut Seat, lane: &Lane) -> u64
    requires site { lane.now ≡ A.lane }
    requires table { seat.old.table_id ≡ words.now.table_id }
    requires board { IsBoard lane.now.instances lane.now.capacity words.now.key words.now.table_id }
    requires rests { Rests lane.now.instances lane.now.capacity lane.now.sender seat.old.me }
    ensures table { (seat.new.table_id ≡ seat.old.table_id) × (seat.new.id ≡ seat.old.id) }
    ensures claims { ClaimsAnew lane.now seat.old.me result seat.new.me }
{
    words.load::<ClaimAnew<A>>(seat, lane.taken_word())
}

/// Takes all free slots, by a load of the sender's own word, which is no look.
#[inline(always)]
pub fn claim_again(words: &SharedTable, seat: &mut Seat, lane: &Lane)
    requires table { seat.old.table_id ≡ words.now.table_id }
    requires board { IsBoard lane.now.instances lane.now.capacity words.now.key words.now.table_id }
    requires rests { Rests lane.now.instances lane.now.capacity lane.now.sender seat.old.me }
    ensures table { (seat.new.table_id ≡ seat.old.table_id) × (seat.new.id ≡ seat.old.id) }
    ensures claims { ClaimsAgain lane.now seat.old.me seat.new.me }
{
    claim_again_at::<Brand>(words, seat, lane);
}

#[inline(always)]
fn claim_again_at<A: Site>(words: &SharedTable, seat: &mut Seat, lane: &Lane)
    requires site { lane.now ≡ A.lane }
    requires table { seat.old.table_id ≡ words.now.table_id }
    requires board { IsBoard lane.now.instances lane.now.capacity words.now.key words.now.table_id }
    requires rests { Rests lane.now.instances lane.now.capacity lane.now.sender seat.old.me }
    ensures table { (seat.new.table_id ≡ seat.old.table_id) × (seat.new.id ≡ seat.old.id) }
    ensures claims { ClaimsAgain lane.now seat.old.me seat.new.me }
{
    words.load::<ClaimAgain<A>>(seat, lane.put_word());
}

/// Fills the first empty slot: that of the message before which `count` were put on the lane.
#[inline(always)]
pub fn fill(words: &SharedTable, seat: &mut Seat, lane: &Lane, count: u64, packet: Packet)
    requires table { seat.old.table_id ≡ words.now.table_id }
    requires board { IsBoard lane.now.instances lane.now.capacity words.now.key words.now.table_id }
    requires filling { IsFilling lane.now seat.old.me }
    requires room { 0 < vacant_out seat.old.me }
    requires count { count ≡ length (sent (held seat.old.me).seen lane.now.sender lane.now.receiver)
        + length (packets_out seat.old.me) }
    ensures table { (seat.new.table_id ≡ seat.old.table_id) × (seat.new.id ≡ seat.old.id) }
    ensures filling { IsFilling lane.now seat.new.me }
    ensures held { held seat.new.me ≡ held seat.old.me }
    ensures packets { packets_out seat.new.me ≡ packets_out seat.old.me ++ packet ∷ [] }
    ensures vacant { suc (vacant_out seat.new.me) ≡ vacant_out seat.old.me }
{
    if words
        .exchange(seat, lane.slot(count), Some(packet))
        .is_some()
    {
        unreachable!()
    }
    seat.turn();
}

/// Empties a slot again, and returns its message.
#[cold]
#[inline(never)]
fn taken_out(slot: &mut Option<Packet>) -> Message
    requires { IsSome slot.old }
    ensures message { IfSome slot.old (λ packet. result ≡ packet.message) }
    ensures empty { slot.new ≡ None }
{
    match slot.take() {
        Some(packet) => packet.message,
        None => unreachable!(),
    }
}

/// Puts a message into an empty slot, and begins its send. In the slot it makes the message's difference: what changed
/// in the sender's clock since the base. Afterwards the base is the message's clock.
///
/// F6: if there is no memory, nothing has changed, and the message comes back.
#[inline(always)]
fn begin_in(
    slot: &mut Option<Packet>,
    recorder: &mut Recorder,
    base: &mut Clock,
    message: Message,
) -> Result<(), Message>
    requires vacant { slot.old ≡ None }
    requires entries { length base.old ≡ length recorder.old.knowledge }
    requires short { length recorder.old.line.events < MAX_EVENTS }
    ensures full { OnOk result (IsSome slot.new) }
    ensures put { OnOk result (IfSome slot.new (λ packet. Carries base.old packet
        (record { message = message; clock = send_clock recorder.old }))) }
    ensures recorder { OnOk result (recorder.new ≡ begun_send recorder.old) }
    ensures base { OnOk result (base.new ≡ send_clock recorder.old) }
    ensures back { IfErr result (λ back. back ≡ message) }
    ensures slot_err { OnErr result (slot.new ≡ None) }
    ensures recorder_err { OnErr result (recorder.new ≡ recorder.old) }
    ensures base_err { OnErr result (base.new ≡ base.old) }
    ensures room { 0 < recorder.old.room → length recorder.old.knowledge ≤ INLINE_ENTRIES → IsOk result }
    ensures alone { 0 < recorder.old.room → AgreeBut recorder.old.line.instance base.old recorder.old.knowledge
        → IsOk result }
{
    // So the compiler knows that the slot is empty, and emits no code that drops an old value. An `if` that ends in
    // `unreachable!()` wouldn't show this to the compiler: a proved build omits all of it.
    let None = slot else { unreachable!() };
    let diff = Diff::none(recorder.alloc());
    *slot = Some(Packet { message, diff });
    let Some(packet) = slot else { unreachable!() };
    let begun = recorder.begin_send(base, &mut packet.diff);
    // This reads the packet once more, so that a proof sees in the slot what was written through the packet.
    let _changes = packet.diff.len();
    let Ok(()) = begun else {
        return Err(taken_out(slot));
    };
    Ok(())
}

/// Puts a message into the first empty slot, and begins its send, which isn't on the sender's line yet. `count`
/// messages were put on the lane before this one. The base is the clock of the message before it, and afterwards the
/// clock of this one.
///
/// F6: if there is no memory, nothing has changed, and the message comes back. With room on the line it needs no memory
/// up to [`INLINE_ENTRIES`] instances, and none if nothing new is known of the others since the base.
#[inline(always)]
pub fn fill_begun(
    words: &SharedTable,
    seat: &mut Seat,
    lane: &Lane,
    count: u64,
    recorder: &mut Recorder,
    base: &mut Clock,
    message: Message,
) -> Result<(), Message>
    requires table { seat.old.table_id ≡ words.now.table_id }
    requires board { IsBoard lane.now.instances lane.now.capacity words.now.key words.now.table_id }
    requires filling { IsFilling lane.now seat.old.me }
    requires room { 0 < vacant_out seat.old.me }
    requires count { count ≡ length (sent (held seat.old.me).seen lane.now.sender lane.now.receiver)
        + length (packets_out seat.old.me) }
    requires knows { length recorder.old.knowledge ≡ lane.now.instances }
    requires entries { length base.old ≡ lane.now.instances }
    requires short { length recorder.old.line.events < MAX_EVENTS }
    ensures table { (seat.new.table_id ≡ seat.old.table_id) × (seat.new.id ≡ seat.old.id) }
    ensures filling { IsFilling lane.now seat.new.me }
    ensures held { held seat.new.me ≡ held seat.old.me }
    ensures packet { OnOk result ((x : Packet) × (packets_out seat.new.me ≡ packets_out seat.old.me ++ x ∷ [])
        × Carries base.old x (record { message = message; clock = send_clock recorder.old })) }
    ensures vacant { OnOk result (suc (vacant_out seat.new.me) ≡ vacant_out seat.old.me) }
    ensures recorder { OnOk result (recorder.new ≡ begun_send recorder.old) }
    ensures base { OnOk result (base.new ≡ send_clock recorder.old) }
    ensures back { IfErr result (λ back. back ≡ message) }
    ensures same { OnErr result (seat.new.me ≡ seat.old.me) }
    ensures recorder_err { OnErr result (recorder.new ≡ recorder.old) }
    ensures base_err { OnErr result (base.new ≡ base.old) }
    ensures memory { 0 < recorder.old.room → lane.now.instances ≤ INLINE_ENTRIES → IsOk result }
    ensures alone { 0 < recorder.old.room → AgreeBut recorder.old.line.instance base.old recorder.old.knowledge
        → IsOk result }
{
    let slot = seat.slot_mut(words, lane.slot(count));
    begin_in(slot, recorder, base, message)?;
    seat.turn();
    Ok(())
}

/// Sends the messages in the slots, one directly after another, and gives all slots back. With these, `count` messages
/// were sent on the lane.
#[inline(always)]
pub fn publish(words: &SharedTable, seat: &mut Seat, lane: &Lane, count: u64)
    requires table { seat.old.table_id ≡ words.now.table_id }
    requires board { IsBoard lane.now.instances lane.now.capacity words.now.key words.now.table_id }
    requires filling { IsFilling lane.now seat.old.me }
    requires count { count ≡ length (sent (held seat.old.me).seen lane.now.sender lane.now.receiver)
        + length (packets_out seat.old.me) }
    requires within_limit { count ≤ MAX_EVENTS }
    requires unclosed { is_closed (held seat.old.me).seen lane.now.sender lane.now.receiver ≡ false }
    requires short { length (chart_of (held seat.old.me).seen lane.now.sender) + length (packets_out seat.old.me)
        ≤ MAX_EVENTS }
    requires next { AreNext lane.now.instances (sent_base lane.now.instances
        (held seat.old.me).seen lane.now.sender lane.now.receiver)
        (held seat.old.me).seen lane.now.sender lane.now.receiver (packets_out seat.old.me) }
    ensures table { (seat.new.table_id ≡ seat.old.table_id) × (seat.new.id ≡ seat.old.id) }
    ensures publishes { Publishes lane.now seat.old.me seat.new.me }
{
    publish_at::<Brand>(words, seat, lane, count);
}

#[inline(always)]
fn publish_at<A: Site>(words: &SharedTable, seat: &mut Seat, lane: &Lane, count: u64)
    requires site { lane.now ≡ A.lane }
    requires table { seat.old.table_id ≡ words.now.table_id }
    requires board { IsBoard lane.now.instances lane.now.capacity words.now.key words.now.table_id }
    requires filling { IsFilling lane.now seat.old.me }
    requires count { count ≡ length (sent (held seat.old.me).seen lane.now.sender lane.now.receiver)
        + length (packets_out seat.old.me) }
    requires within_limit { count ≤ MAX_EVENTS }
    requires unclosed { is_closed (held seat.old.me).seen lane.now.sender lane.now.receiver ≡ false }
    requires short { length (chart_of (held seat.old.me).seen lane.now.sender) + length (packets_out seat.old.me)
        ≤ MAX_EVENTS }
    requires next { AreNext lane.now.instances (sent_base lane.now.instances
        (held seat.old.me).seen lane.now.sender lane.now.receiver)
        (held seat.old.me).seen lane.now.sender lane.now.receiver (packets_out seat.old.me) }
    ensures table { (seat.new.table_id ≡ seat.old.table_id) × (seat.new.id ≡ seat.old.id) }
    ensures publishes { Publishes lane.now seat.old.me seat.new.me }
{
    words.store::<Publish<A>>(seat, lane.put_word(), 2 * count);
}

/// Gives all slots back, if none is filled, by a load of the sender's own word.
pub fn give_back_vacant(words: &SharedTable, seat: &mut Seat, lane: &Lane)
    requires table { seat.old.table_id ≡ words.now.table_id }
    requires board { IsBoard lane.now.instances lane.now.capacity words.now.key words.now.table_id }
    requires filling { IsFilling lane.now seat.old.me }
    requires vacant { packets_out seat.old.me ≡ [] }
    ensures table { (seat.new.table_id ≡ seat.old.table_id) × (seat.new.id ≡ seat.old.id) }
    ensures puts_back { PutsBack seat.old.me seat.new.me }
{
    give_back_vacant_at::<Brand>(words, seat, lane);
}

fn give_back_vacant_at<A: Site>(words: &SharedTable, seat: &mut Seat, lane: &Lane)
    requires site { lane.now ≡ A.lane }
    requires table { seat.old.table_id ≡ words.now.table_id }
    requires board { IsBoard lane.now.instances lane.now.capacity words.now.key words.now.table_id }
    requires filling { IsFilling lane.now seat.old.me }
    requires vacant { packets_out seat.old.me ≡ [] }
    ensures table { (seat.new.table_id ≡ seat.old.table_id) × (seat.new.id ≡ seat.old.id) }
    ensures puts_back { PutsBack seat.old.me seat.new.me }
{
    words.load::<PutBackFilling<A>>(seat, lane.put_word());
}

/// Closes the lane, on which `count` messages were sent.
pub fn close(words: &SharedTable, seat: &mut Seat, lane: &Lane, count: u64)
    requires table { seat.old.table_id ≡ words.now.table_id }
    requires board { IsBoard lane.now.instances lane.now.capacity words.now.key words.now.table_id }
    requires rests { Rests lane.now.instances lane.now.capacity lane.now.sender seat.old.me }
    requires count { count ≡ length (sent (held seat.old.me).seen lane.now.sender lane.now.receiver) }
    requires within_limit { count ≤ MAX_EVENTS }
    requires unclosed { is_closed (held seat.old.me).seen lane.now.sender lane.now.receiver ≡ false }
    ensures table { (seat.new.table_id ≡ seat.old.table_id) × (seat.new.id ≡ seat.old.id) }
    ensures closes { Closes lane.now seat.old.me seat.new.me }
{
    close_at::<Brand>(words, seat, lane, count);
}

fn close_at<A: Site>(words: &SharedTable, seat: &mut Seat, lane: &Lane, count: u64)
    requires site { lane.now ≡ A.lane }
    requires table { seat.old.table_id ≡ words.now.table_id }
    requires board { IsBoard lane.now.instances lane.now.capacity words.now.key words.now.table_id }
    requires rests { Rests lane.now.instances lane.now.capacity lane.now.sender seat.old.me }
    requires count { count ≡ length (sent (held seat.old.me).seen lane.now.sender lane.now.receiver) }
    requires within_limit { count ≤ MAX_EVENTS }
    requires unclosed { is_closed (held seat.old.me).seen lane.now.sender lane.now.receiver ≡ false }
    ensures table { (seat.new.table_id ≡ seat.old.table_id) × (seat.new.id ≡ seat.old.id) }
    ensures closes { Closes lane.now seat.old.me seat.new.me }
{
    words.store::<CloseLane<A>>(seat, lane.put_word(), 2 * count + 1);
}
