//! Receives of one message.
ghost use Rattle.std.specs.Prelude.{◌≡◌, ◌+◌, ◌-◌, ◌<◌, ◌≤◌, [], length, IfOk, IfErr, OnOk, OnErr};
ghost use Rattle.chart.specs.Histories.{own, AreTwo, IsLegal};
ghost use Rattle.chart.specs.declared.line.TheConstants.{MAX_EVENTS};
ghost use Rattle.line_recorder.specs.Recording.{IsRecorder};
ghost use Rattle.board_table.specs.Layout.{IsBoard};
ghost use Rattle.board_table.specs.Knowing.{held, packets_out, Rests};
ghost use Rattle.board_table.specs.Recording.{IsRecorded};
ghost use Rattle.board.specs.Known.{IsIncoming, Did};
ghost use Rattle.board.specs.Found.{IsFound, KnowsOf};
ghost use Rattle.board.specs.Receipts.{MayReceive, MayTake, IsTaken, IsReceived, IsUnreceived};
ghost use Rattle.board.specs.declared.receiving.Found.TheVariants.{Messages};

use crate::answer::Arrival;
use crate::ends::Incoming;
use crate::error::TakeError;
use board_table::{
    Lane, Seat, SharedTable, find_again, find_anew, free, give_back_full, look, take_recorded,
};
use chart::{InstanceNo, MAX_EVENTS};
use line_recorder::Recorder;
use std::alloc::AllocError;

/// What a receiver finds on a lane.
#[derive(Clone, Copy, Debug, PartialEq, Eq)]
pub(crate) enum Found {
    /// One message or more.
    Messages,
    /// None, and the lane is open.
    Nothing,
    /// None, and the lane is closed.
    Ended,
}

/// Takes the slots of all messages that wait on the lane. It looks at the sender's word only if it knows of fewer than
/// `many` messages.
///
/// If it knows of no message, it looks before it takes a slot. So an empty lane costs one load.
#[inline(always)]
pub(crate) fn find_messages(
    words: &SharedTable,
    seat: &mut Seat,
    lane: &Lane,
    end: &mut Incoming,
    many: u64,
) -> Found
    requires table { seat.old.table_id ≡ words.now.table_id }
    requires board { IsBoard lane.now.instances lane.now.capacity words.now.key words.now.table_id }
    requires rests { Rests lane.now.instances lane.now.capacity lane.now.receiver seat.old.me }
    requires legal { IsLegal lane.now.instances lane.now.capacity (held seat.old.me).seen }
    requires own { own (held seat.old.me).seen lane.now.receiver ≡ (held seat.old.me).made }
    requires end { IsIncoming lane.now.instances (held seat.old.me).seen lane.now.receiver lane.now.sender end.old }
    requires some { 1 ≤ many }
    ensures table { seat.new.table_id ≡ seat.old.table_id }
    ensures did { Did lane.now.instances lane.now.capacity lane.now.receiver (held seat.old.me) (held seat.new.me)
        (held seat.new.me).seen [] }
    ensures end { IsIncoming lane.now.instances (held seat.new.me).seen lane.now.receiver lane.now.sender end.new }
    ensures looks { end.old.taken + many ≤ end.old.known_put → (held seat.new.me).looks ≡ (held seat.old.me).looks }
    ensures found { IsFound lane.now seat.old.me seat.new.me result }
    ensures knows { result ≡ Messages → KnowsOf lane.now many seat.new.me end.new }
{
    if end.taken < end.known_put {
        return find_more(words, seat, lane, end, many);
    }
    let word = look(words, seat, lane);
    if end.taken < word / 2 {
        return find_more(words, seat, lane, end, many);
    }
    if word % 2 == 1 {
        Found::Ended
    } else {
        Found::Nothing
    }
}

/// Takes the slots of all messages that wait on the lane. It looks at the sender's word only if it knows of fewer than
/// `many` messages.
#[inline(always)]
fn find_more(
    words: &SharedTable,
    seat: &mut Seat,
    lane: &Lane,
    end: &mut Incoming,
    many: u64,
) -> Found
    requires table { seat.old.table_id ≡ words.now.table_id }
    requires board { IsBoard lane.now.instances lane.now.capacity words.now.key words.now.table_id }
    requires rests { Rests lane.now.instances lane.now.capacity lane.now.receiver seat.old.me }
    requires legal { IsLegal lane.now.instances lane.now.capacity (held seat.old.me).seen }
    requires own { own (held seat.old.me).seen lane.now.receiver ≡ (held seat.old.me).made }
    requires end { IsIncoming lane.now.instances (held seat.old.me).seen lane.now.receiver lane.now.sender end.old }
    requires some { 1 ≤ many }
    ensures table { seat.new.table_id ≡ seat.old.table_id }
    ensures did { Did lane.now.instances lane.now.capacity lane.now.receiver (held seat.old.me) (held seat.new.me)
        (held seat.new.me).seen [] }
    ensures end { IsIncoming lane.now.instances (held seat.new.me).seen lane.now.receiver lane.now.sender end.new }
    ensures looks { end.old.taken + many ≤ end.old.known_put → (held seat.new.me).looks ≡ (held seat.old.me).looks }
    ensures found { IsFound lane.now seat.old.me seat.new.me result }
    ensures knows { result ≡ Messages → KnowsOf lane.now many seat.new.me end.new }
{
    if end.known_put.saturating_sub(end.taken) >= many {
        find_again(words, seat, lane);
        return Found::Messages;
    }
    let word = find_anew(words, seat, lane);
    end.known_put = word / 2;
    if end.taken < end.known_put {
        return Found::Messages;
    }
    give_back_full(words, seat, lane);
    if word % 2 == 1 {
        Found::Ended
    } else {
        Found::Nothing
    }
}

/// Receives the first of the found messages, in the coregion `region`.
///
/// The first of F7 and F6 that applies refuses it, and then the message is still the first of its lane.
#[inline(always)]
pub(crate) fn receive_one(
    words: &SharedTable,
    seat: &mut Seat,
    lane: &Lane,
    recorder: &mut Recorder,
    end: &mut Incoming,
    from: InstanceNo,
    region: u32,
) -> Result<Arrival, TakeError>
    requires table { seat.old.table_id ≡ words.now.table_id }
    requires board { IsBoard lane.now.instances lane.now.capacity words.now.key words.now.table_id }
    requires may_receive { MayReceive lane.now region seat.old.me end.old recorder.old }
    requires from { from ≡ lane.now.sender }
    ensures table { seat.new.table_id ≡ seat.old.table_id }
    ensures rests { Rests lane.now.instances lane.now.capacity lane.now.receiver seat.new.me }
    ensures recorder { IsRecorder lane.now.instances (held seat.new.me).seen lane.now.receiver recorder.new }
    ensures end { IsIncoming lane.now.instances (held seat.new.me).seen lane.now.receiver lane.now.sender end.new }
    ensures ok { IfOk result (λ arrival. IsReceived lane.now region seat.old.me arrival seat.new.me) }
    ensures err { IfErr result (λ error. IsUnreceived lane.now seat.old.me seat.new.me error) }
    ensures left { OnOk result (recorder.new.room ≡ recorder.old.room - 1) }
    ensures kept { OnErr result (recorder.new.room ≡ recorder.old.room) }
{
    if recorder.line().len() >= MAX_EVENTS {
        give_back_full(words, seat, lane);
        return Err(TakeError::LineFull);
    }
    let arrival = match take_next(words, seat, lane, recorder, end, from, region) {
        Ok(arrival) => arrival,
        Err(AllocError) => {
            give_back_full(words, seat, lane);
            return Err(TakeError::Memory);
        }
    };
    free(words, seat, lane, end.taken, region);
    Ok(arrival)
}

/// Takes the next of the found messages out of its slot, and records its receive.
///
/// F6: it fails only if there is no memory, and then nothing has changed.
#[inline(always)]
pub(crate) fn take_next(
    words: &SharedTable,
    seat: &mut Seat,
    lane: &Lane,
    recorder: &mut Recorder,
    end: &mut Incoming,
    from: InstanceNo,
    region: u32,
) -> Result<Arrival, AllocError>
    requires table { seat.old.table_id ≡ words.now.table_id }
    requires board { IsBoard lane.now.instances lane.now.capacity words.now.key words.now.table_id }
    requires may_take { MayTake lane.now region seat.old.me end.old recorder.old }
    requires from { from ≡ lane.now.sender }
    ensures table { seat.new.table_id ≡ seat.old.table_id }
    ensures ok { IfOk result (λ arrival. IsTaken lane.now region
        (record { me = seat.old.me; end = end.old; recorder = recorder.old }) arrival
        (record { me = seat.new.me; end = end.new; recorder = recorder.new })) }
    ensures seat { OnErr result (seat.new.me ≡ seat.old.me) }
    ensures end { OnErr result (end.new ≡ end.old) }
    ensures recorder { OnErr result (recorder.new ≡ recorder.old) }
{
    let count = end.taken;
    let Ok((message, report)) = take_recorded(
        words,
        seat,
        lane,
        count,
        recorder,
        &mut end.base,
        region,
    ) else {
        return Err(AllocError);
    };
    end.taken += 1;
    Ok(Arrival {
        from,
        message,
        report,
    })
}
