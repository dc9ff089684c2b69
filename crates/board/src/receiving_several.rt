//! Receives of several messages at once.
ghost use Rattle.std.specs.Prelude.{◌≡◌, ◌-◌, ◌<◌, ◌≤◌, [], length, IfOk, IfErr, OnErr};
ghost use Rattle.line_recorder.specs.Recording.{IsRecorder};
ghost use Rattle.board_table.specs.Layout.{IsBoard};
ghost use Rattle.board_table.specs.Knowing.{held, Rests};
ghost use Rattle.board.specs.Known.{IsIncoming};
ghost use Rattle.board.specs.Found.{KnowsOf};
ghost use Rattle.board.specs.Receipts.{MayReceive, AreTaken, IsHalted, AreReceived, IsStopped, IsUnreceived};

use crate::answer::{Arrival, Stop};
use crate::ends::Incoming;
use crate::error::TakeError;
use crate::receiving::take_next;
use board_table::{Lane, Seat, SharedTable, free, give_back_full};
use chart::{InstanceNo, MAX_EVENTS};
use line_recorder::Recorder;
use std::alloc::{AllocError, Global};

/// Receives the first of the found messages, at most `max`, in the coregion `region`. It also returns why it received
/// no more. The slots of these messages are freed at once.
///
/// The first of F7 and F6 that applies refuses it if it prevents the receive of the first message. Then this message is
/// still the first of its lane.
pub(crate) fn receive_several(
    words: &SharedTable,
    seat: &mut Seat,
    lane: &Lane,
    alloc: Global,
    recorder: &mut Recorder,
    end: &mut Incoming,
    from: InstanceNo,
    region: u32,
    max: u64,
) -> Result<(Vec<Arrival>, Stop), TakeError>
    requires table { seat.old.table_id ≡ words.now.table_id }
    requires board { IsBoard lane.now.instances lane.now.capacity words.now.key words.now.table_id }
    requires may_receive { MayReceive lane.now region seat.old.me end.old recorder.old }
    requires from { from ≡ lane.now.sender }
    requires max { 1 ≤ max }
    requires knows { KnowsOf lane.now max seat.old.me end.old }
    ensures table { seat.new.table_id ≡ seat.old.table_id }
    ensures rests { Rests lane.now.instances lane.now.capacity lane.now.receiver seat.new.me }
    ensures recorder { IsRecorder lane.now.instances (held seat.new.me).seen lane.now.receiver recorder.new }
    ensures end { IsIncoming lane.now.instances (held seat.new.me).seen lane.now.receiver lane.now.sender end.new }
    ensures some { IfOk result (λ got. 0 < length got.0.items) }
    ensures most { IfOk result (λ got. length got.0.items ≤ max) }
    ensures received { IfOk result (λ got. AreReceived lane.now region seat.old.me got.0.items seat.new.me) }
    ensures stop { IfOk result (λ got. IsStopped lane.now max seat.old.me got.0.items seat.new.me got.1) }
    ensures err { IfErr result (λ error. IsUnreceived lane.now seat.old.me seat.new.me error) }
    ensures left { IfOk result (λ got. recorder.new.room ≡ recorder.old.room - length got.0.items) }
    ensures kept { OnErr result (recorder.new.room ≡ recorder.old.room) }
{
    let mut arrivals = Vec::new(alloc);
    let stop = take_several(
        words,
        seat,
        lane,
        recorder,
        end,
        from,
        region,
        max,
        &mut arrivals,
    );
    match stop {
        Stop::Refused(error) if arrivals.is_empty() => {
            give_back_full(words, seat, lane);
            Err(error)
        }
        _ => {
            free(words, seat, lane, end.taken, region);
            Ok((arrivals, stop))
        }
    }
}

/// Takes the first of the known messages out of their slots, at most `max`, and records their receives. It returns why
/// it took no more: then the next message is still in its slot.
fn take_several(
    words: &SharedTable,
    seat: &mut Seat,
    lane: &Lane,
    recorder: &mut Recorder,
    end: &mut Incoming,
    from: InstanceNo,
    region: u32,
    max: u64,
    arrivals: &mut Vec<Arrival>,
) -> Stop
    requires table { seat.old.table_id ≡ words.now.table_id }
    requires board { IsBoard lane.now.instances lane.now.capacity words.now.key words.now.table_id }
    requires may_receive { MayReceive lane.now region seat.old.me end.old recorder.old }
    requires from { from ≡ lane.now.sender }
    requires some { end.old.taken < end.old.known_put }
    requires none { arrivals.old.items ≡ [] }
    ensures table { seat.new.table_id ≡ seat.old.table_id }
    ensures taken { AreTaken lane.now region (record { me = seat.old.me; end = end.old; recorder = recorder.old })
        arrivals.new.items (record { me = seat.new.me; end = end.new; recorder = recorder.new }) }
    ensures most { length arrivals.new.items ≤ max }
    ensures stop { IsHalted max (end.old.known_put - end.old.taken) (length arrivals.new.items)
        (length recorder.new.line.events) result }
{
    let many = max.min(end.known_put - end.taken);
    // If there is no memory for all at once, there may still be some for the first ones.
    let _ = arrivals.reserve(many as usize);
    for _ in 0..many {
        if recorder.line().len() >= MAX_EVENTS {
            return Stop::Refused(TakeError::LineFull);
        }
        if let Err(AllocError) = arrivals.reserve(1) {
            return Stop::Refused(TakeError::Memory);
        }
        let arrival = match take_next(words, seat, lane, recorder, end, from, region) {
            Ok(arrival) => arrival,
            Err(AllocError) => return Stop::Refused(TakeError::Memory),
        };
        arrivals.push_reserved(arrival);
    }
    if many == max {
        Stop::Asked
    } else {
        Stop::NoMore
    }
}
