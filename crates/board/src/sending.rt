//! Sends.
ghost use Rattle.std.specs.Prelude.{◌≡◌, ◌≢◌, ◌+◌, ◌-◌, ◌<◌, ◌≤◌, true, false, [], ◌∷◌, drop, OnOk, OnErr, IfErr};
ghost use Rattle.chart.specs.Histories.{own, IsLegal};
ghost use Rattle.chart.specs.declared.history.Occurrence.TheVariants as occurrence;
ghost use Rattle.chart.specs.declared.line.TheConstants.{MAX_EVENTS};
ghost use Rattle.clock.specs.declared.clock.TheConstants.{INLINE_ENTRIES};
ghost use Rattle.clock.specs.Diffs.{AgreeBut};
ghost use Rattle.line_recorder.specs.Recording.{IsRecorder};
ghost use Rattle.chart.specs.declared.history.TheConstants.{MAX_CAPACITY};
ghost use Rattle.board_table.specs.Layout.{IsBoard};
ghost use Rattle.board_table.specs.Knowing.{held, Rests};
ghost use Rattle.board.specs.Known.{IsOutgoing, Did};
ghost use Rattle.board.specs.Parts.{MayPut, HasSlots, HasNoSlots, IsUnmade};

use crate::ends::Outgoing;
use crate::error::SendError;
use board_table::{
    Lane, Seat, SharedTable, claim_again, claim_anew, fill_begun, give_back_vacant, publish,
};
use chart::Message;
use line_recorder::Recorder;

/// Takes all free slots of the lane if there are at least `many`, and otherwise none. It looks at the receiver's word
/// only if the known number leaves too few.
#[inline(always)]
pub(crate) fn claim_slots(
    words: &SharedTable,
    seat: &mut Seat,
    lane: &Lane,
    end: &mut Outgoing,
    capacity: usize,
    many: usize,
) -> bool
    requires table { seat.old.table_id ≡ words.now.table_id }
    requires board { IsBoard lane.now.instances lane.now.capacity words.now.key words.now.table_id }
    requires rests { Rests lane.now.instances lane.now.capacity lane.now.sender seat.old.me }
    requires legal { IsLegal lane.now.instances lane.now.capacity (held seat.old.me).seen }
    requires end { IsOutgoing lane.now.instances (held seat.old.me).seen lane.now.sender lane.now.receiver end.old }
    requires own { own (held seat.old.me).seen lane.now.sender ≡ (held seat.old.me).made }
    requires within_limit { end.old.put ≤ MAX_EVENTS }
    requires capacity { capacity ≡ lane.now.capacity }
    requires many { many ≤ MAX_CAPACITY }
    ensures table { seat.new.table_id ≡ seat.old.table_id }
    ensures did { Did lane.now.instances lane.now.capacity lane.now.sender (held seat.old.me) (held seat.new.me)
        (held seat.new.me).seen [] }
    ensures end { IsOutgoing lane.now.instances (held seat.new.me).seen lane.now.sender lane.now.receiver end.new }
    ensures base { end.new.base ≡ end.old.base }
    ensures looks { end.old.put + many ≤ lane.now.capacity + end.old.known_taken
        → (held seat.new.me).looks ≡ (held seat.old.me).looks }
    ensures yes { result ≡ true → HasSlots lane.now many seat.new.me }
    ensures no { result ≡ false → HasNoSlots lane.now many seat.old.me seat.new.me }
{
    let used = end.put - end.known_taken;
    if used + many as u64 <= capacity as u64 {
        claim_again(words, seat, lane);
        return true;
    }
    end.known_taken = claim_anew(words, seat, lane);
    if end.put - end.known_taken + many as u64 <= capacity as u64 {
        return true;
    }
    give_back_vacant(words, seat, lane);
    false
}

/// Sends a message on an open lane, if the sender's line may get another event. All steps that can be refused come
/// first: the message is published before its send is recorded.
#[inline(always)]
pub(crate) fn send_one(
    words: &SharedTable,
    seat: &mut Seat,
    lane: &Lane,
    recorder: &mut Recorder,
    end: &mut Outgoing,
    capacity: usize,
    message: Message,
) -> Result<(), (Message, SendError)>
    requires table { seat.old.table_id ≡ words.now.table_id }
    requires board { IsBoard lane.now.instances lane.now.capacity words.now.key words.now.table_id }
    requires may_put { MayPut lane.now 1 seat.old.me end.old recorder.old }
    requires capacity { capacity ≡ lane.now.capacity }
    ensures table { seat.new.table_id ≡ seat.old.table_id }
    ensures rests { Rests lane.now.instances lane.now.capacity lane.now.sender seat.new.me }
    ensures recorder { IsRecorder lane.now.instances (held seat.new.me).seen lane.now.sender recorder.new }
    ensures end { IsOutgoing lane.now.instances (held seat.new.me).seen lane.now.sender lane.now.receiver end.new }
    ensures ok { OnOk result (Did lane.now.instances lane.now.capacity lane.now.sender (held seat.old.me)
        (held seat.new.me) (drop 1 (held seat.new.me).seen)
        (occurrence.Send lane.now.sender lane.now.receiver message ∷ [])) }
    ensures err { IfErr result (λ error. (error.0 ≡ message) × IsUnmade lane.now 1 seat.old.me seat.new.me error.1) }
    ensures left { OnOk result (recorder.new.room ≡ recorder.old.room - 1) }
    ensures kept { OnErr result (recorder.new.room ≡ recorder.old.room) }
    ensures room { 0 < recorder.old.room → lane.now.instances ≤ INLINE_ENTRIES
        → IfErr result (λ error. error.1 ≢ SendError.Memory) }
    ensures alone { 0 < recorder.old.room → AgreeBut lane.now.sender end.old.base recorder.old.knowledge
        → IfErr result (λ error. error.1 ≢ SendError.Memory) }
{
    if !claim_slots(words, seat, lane, end, capacity, 1) {
        return Err((message, SendError::Full));
    }
    let put = end.put;
    let name = message.name();
    if let Err(message) = fill_begun(words, seat, lane, put, recorder, &mut end.base, message) {
        give_back_vacant(words, seat, lane);
        return Err((message, SendError::Memory));
    }
    end.put += 1;
    publish(words, seat, lane, end.put);
    recorder.record_begun(lane.receiver(), name);
    Ok(())
}
