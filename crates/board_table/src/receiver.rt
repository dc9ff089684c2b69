//! The steps of a lane's receiver.
ghost use Rattle.std.specs.Prelude.{◌≡◌, ℕ, ◌+◌, ◌<◌, ◌≤◌, ◌↔◌, [], ◌∷◌, length, suc, Err, IfOk, OnOk, OnErr};
ghost use Rattle.chart.specs.Events.{MayHaveRegion};
ghost use Rattle.chart.specs.Histories.{received, chart_of};
ghost use Rattle.chart.specs.declared.line.TheConstants.{MAX_EVENTS};
ghost use Rattle.board_table.specs.declared.packet.Packet.{Packet};
ghost use Rattle.board_table.specs.Layout.{IsBoard, put_word};
ghost use Rattle.board_table.specs.Knowing.{held, packets_out, vacant_out, emptied_base, Rests, IsEmptying};
ghost use Rattle.board_table.specs.Plays.{FindsAnew, FindsAgain, LooksAt, Frees, PutsBack};
ghost use Rattle.board_table.specs.Recording.{IsReady, IsRecorded};

use crate::rule::{FindAgain, FindAnew, Free, LookAt, PutBackEmptying, Site};
use crate::{Lane, Packet, Seat, SharedTable};
use chart::{Message, Report};
use clock::Clock;
use line_recorder::{RecordError, Recorder};
use std::marker::Brand;

/// Takes the slots of all waiting messages, by a look at the sender's word. It returns this word: twice the number of
/// sent messages, and one more if the lane is closed.
#[inline(always)]
pub fn find_anew(words: &SharedTable, seat: &mut Seat, lane: &Lane) -> u64
    requires table { seat.old.table_id ≡ words.now.table_id }
    requires board { IsBoard lane.now.instances lane.now.capacity words.now.key words.now.table_id }
    requires rests { Rests lane.now.instances lane.now.capacity lane.now.receiver seat.old.me }
    ensures table { (seat.new.table_id ≡ seat.old.table_id) × (seat.new.id ≡ seat.old.id) }
    ensures finds { FindsAnew lane.now seat.old.me result seat.new.me }
{
    find_anew_at::<Brand>(words, seat, lane)
}

#[inline(always)]
fn find_anew_at<A: Site>(words: &SharedTable, seat: &mut Seat, lane: &Lane) -> u64
    requires site { lane.now ≡ A.lane }
    requires table { seat.old.table_id ≡ words.now.table_id }
    requires board { IsBoard lane.now.instances lane.now.capacity words.now.key words.now.table_id }
    requires rests { Rests lane.now.instances lane.now.capacity lane.now.receiver seat.old.me }
    ensures table { (seat.new.table_id ≡ seat.old.table_id) × (seat.new.id ≡ seat.old.id) }
    ensures finds { FindsAnew lane.now seat.old.me result seat.new.me }
{
    words.load::<FindAnew<A>>(seat, lane.put_word())
}

/// Looks at the sender's word without taking a slot. It returns this word: twice the number of sent messages, and one
/// more if the lane is closed.
#[inline(always)]
pub fn look(words: &SharedTable, seat: &mut Seat, lane: &Lane) -> u64
    requires table { seat.old.table_id ≡ words.now.table_id }
    requires board { IsBoard lane.now.instances lane.now.capacity words.now.key words.now.table_id }
    requires rests { Rests lane.now.instances lane.now.capacity lane.now.receiver seat.old.me }
    ensures table { (seat.new.table_id ≡ seat.old.table_id) × (seat.new.id ≡ seat.old.id) }
    ensures looks { LooksAt lane.now seat.old.me result seat.new.me }
{
    look_at::<Brand>(words, seat, lane, lane.put_word())
}

/// The same, if the caller knows the number of the lane's word.
#[inline(always)]
pub fn look_there(words: &SharedTable, seat: &mut Seat, lane: &Lane, word: usize) -> u64
    requires table { seat.old.table_id ≡ words.now.table_id }
    requires board { IsBoard lane.now.instances lane.now.capacity words.now.key words.now.table_id }
    requires rests { Rests lane.now.instances lane.now.capacity lane.now.receiver seat.old.me }
    requires word { word ≡ put_word lane.now.instances lane.now.sender lane.now.receiver }
    ensures table { (seat.new.table_id ≡ seat.old.table_id) × (seat.new.id ≡ seat.old.id) }
    ensures looks { LooksAt lane.now seat.old.me result seat.new.me }
{
    look_at::<Brand>(words, seat, lane, word)
}

#[inline(always)]
fn look_at<A: Site>(words: &SharedTable, seat: &mut Seat, lane: &Lane, word: usize) -> u64
    requires site { lane.now ≡ A.lane }
    requires table { seat.old.table_id ≡ words.now.table_id }
    requires board { IsBoard lane.now.instances lane.now.capacity words.now.key words.now.table_id }
    requires rests { Rests lane.now.instances lane.now.capacity lane.now.receiver seat.old.me }
    requires word { word ≡ put_word lane.now.instances lane.now.sender lane.now.receiver }
    ensures table { (seat.new.table_id ≡ seat.old.table_id) × (seat.new.id ≡ seat.old.id) }
    ensures looks { LooksAt lane.now seat.old.me result seat.new.me }
{
    // The prover learns the facts about the lane's word from this call.
    let _ = lane.put_word();
    words.load::<LookAt<A>>(seat, word)
}

/// Takes the slots of all waiting messages, by a load of the receiver's own word, which is no look.
#[inline(always)]
pub fn find_again(words: &SharedTable, seat: &mut Seat, lane: &Lane)
    requires table { seat.old.table_id ≡ words.now.table_id }
    requires board { IsBoard lane.now.instances lane.now.capacity words.now.key words.now.table_id }
    requires rests { Rests lane.now.instances lane.now.capacity lane.now.receiver seat.old.me }
    ensures table { (seat.new.table_id ≡ seat.old.table_id) × (seat.new.id ≡ seat.old.id) }
    ensures finds { FindsAgain lane.now seat.old.me seat.new.me }
{
    find_again_at::<Brand>(words, seat, lane);
}

#[inline(always)]
fn find_again_at<A: Site>(words: &SharedTable, seat: &mut Seat, lane: &Lane)
    requires site { lane.now ≡ A.lane }
    requires table { seat.old.table_id ≡ words.now.table_id }
    requires board { IsBoard lane.now.instances lane.now.capacity words.now.key words.now.table_id }
    requires rests { Rests lane.now.instances lane.now.capacity lane.now.receiver seat.old.me }
    ensures table { (seat.new.table_id ≡ seat.old.table_id) × (seat.new.id ≡ seat.old.id) }
    ensures finds { FindsAgain lane.now seat.old.me seat.new.me }
{
    words.load::<FindAgain<A>>(seat, lane.taken_word());
}

/// Records the receive of the first message in the slots, in the coregion `region` (0 outside of one), and takes the
/// message out of its slot. It returns the message and its report. The base is the clock of the message before it, and
/// afterwards the clock of this one. `count` messages came before it on the lane.
///
/// The first of F7 and F6 that applies refuses it. Then nothing has changed, and the message is where it was.
#[inline(always)]
pub fn take_recorded(
    words: &SharedTable,
    seat: &mut Seat,
    lane: &Lane,
    count: u64,
    recorder: &mut Recorder,
    base: &mut Clock,
    region: u32,
) -> Result<(Message, Report), RecordError>
    requires table { seat.old.table_id ≡ words.now.table_id }
    requires board { IsBoard lane.now.instances lane.now.capacity words.now.key words.now.table_id }
    requires emptying { IsEmptying lane.now seat.old.me }
    requires some { 0 < length (packets_out seat.old.me) }
    requires count { count ≡ received (held seat.old.me).seen lane.now.sender lane.now.receiver
        + vacant_out seat.old.me }
    requires base { base.old ≡ emptied_base lane.now seat.old.me }
    requires entries { length base.old ≡ lane.now.instances }
    requires ready { IsReady lane.now region recorder.old }
    ensures table { (seat.new.table_id ≡ seat.old.table_id) × (seat.new.id ≡ seat.old.id) }
    ensures emptying { OnOk result (IsEmptying lane.now seat.new.me) }
    ensures held { held seat.new.me ≡ held seat.old.me }
    ensures packet { IfOk result (λ took. (x : Packet) × (packets_out seat.old.me ≡ x ∷ packets_out seat.new.me)
        × (took.0 ≡ x.message)) }
    ensures vacant { OnOk result (vacant_out seat.new.me ≡ suc (vacant_out seat.old.me)) }
    ensures recorded { IfOk result (λ took. IsRecorded (packets_out seat.old.me) base.old recorder.old (record {
      from = lane.now.sender;
      region = region;
      clock = base.new;
      report = took.1;
    }) recorder.new) }
    ensures full { (result ≡ Err RecordError.LineFull) ↔ (length recorder.old.line.events ≡ MAX_EVENTS) }
    ensures same { OnErr result (seat.new.me ≡ seat.old.me) }
    ensures err { OnErr result (recorder.new ≡ recorder.old) }
    ensures base_err { OnErr result (base.new ≡ base.old) }
{
    let from = lane.sender();
    let slot = seat.slot_mut(words, lane.slot(count));
    let Some(packet) = slot else { unreachable!() };
    let report = recorder.receive_over(from, packet.message.name(), base, &packet.diff, region)?;
    let Some(Packet { message, diff: _ }) = slot.take() else {
        unreachable!()
    };
    seat.turn();
    Ok((message, report))
}

/// Receives the messages that were taken out, one directly after another, in the coregion `region` (0 outside of one),
/// and gives all slots back. The other messages wait again. With these, `count` messages were received on the lane.
#[inline(always)]
pub fn free(words: &SharedTable, seat: &mut Seat, lane: &Lane, count: u64, region: u32)
    requires table { seat.old.table_id ≡ words.now.table_id }
    requires board { IsBoard lane.now.instances lane.now.capacity words.now.key words.now.table_id }
    requires emptying { IsEmptying lane.now seat.old.me }
    requires count { count ≡ received (held seat.old.me).seen lane.now.sender lane.now.receiver
        + vacant_out seat.old.me }
    requires short { length (chart_of (held seat.old.me).seen lane.now.receiver) + vacant_out seat.old.me ≤ MAX_EVENTS }
    requires coregion { MayHaveRegion (chart_of (held seat.old.me).seen lane.now.receiver) region }
    ensures table { (seat.new.table_id ≡ seat.old.table_id) × (seat.new.id ≡ seat.old.id) }
    ensures frees { Frees lane.now region seat.old.me seat.new.me }
{
    free_at::<Brand>(words, seat, lane, count, region);
}

#[inline(always)]
fn free_at<A: Site>(words: &SharedTable, seat: &mut Seat, lane: &Lane, count: u64, region: u32)
    requires site { (lane.now ≡ A.lane) × (region ≡ A.region) }
    requires table { seat.old.table_id ≡ words.now.table_id }
    requires board { IsBoard lane.now.instances lane.now.capacity words.now.key words.now.table_id }
    requires emptying { IsEmptying lane.now seat.old.me }
    requires count { count ≡ received (held seat.old.me).seen lane.now.sender lane.now.receiver
        + vacant_out seat.old.me }
    requires short { length (chart_of (held seat.old.me).seen lane.now.receiver) + vacant_out seat.old.me ≤ MAX_EVENTS }
    requires coregion { MayHaveRegion (chart_of (held seat.old.me).seen lane.now.receiver) region }
    ensures table { (seat.new.table_id ≡ seat.old.table_id) × (seat.new.id ≡ seat.old.id) }
    ensures frees { Frees lane.now region seat.old.me seat.new.me }
{
    words.store::<Free<A>>(seat, lane.taken_word(), count);
}

/// Gives all slots back, if nothing was taken out of them, by a load of the receiver's own word.
pub fn give_back_full(words: &SharedTable, seat: &mut Seat, lane: &Lane)
    requires table { seat.old.table_id ≡ words.now.table_id }
    requires board { IsBoard lane.now.instances lane.now.capacity words.now.key words.now.table_id }
    requires emptying { IsEmptying lane.now seat.old.me }
    requires full { vacant_out seat.old.me ≡ 0 }
    ensures table { (seat.new.table_id ≡ seat.old.table_id) × (seat.new.id ≡ seat.old.id) }
    ensures puts_back { PutsBack seat.old.me seat.new.me }
{
    give_back_full_at::<Brand>(words, seat, lane);
}

fn give_back_full_at<A: Site>(words: &SharedTable, seat: &mut Seat, lane: &Lane)
    requires site { lane.now ≡ A.lane }
    requires table { seat.old.table_id ≡ words.now.table_id }
    requires board { IsBoard lane.now.instances lane.now.capacity words.now.key words.now.table_id }
    requires emptying { IsEmptying lane.now seat.old.me }
    requires full { vacant_out seat.old.me ≡ 0 }
    ensures table { (seat.new.table_id ≡ seat.old.table_id) × (seat.new.id ≡ seat.old.id) }
    ensures puts_back { PutsBack seat.old.me seat.new.me }
{
    words.load::<PutBackEmptying<A>>(seat, lane.taken_word());
}
