//! Messages that lead around.
//!
//! For the sends from which a number of messages lead to an event, it is enough to know the last one of each line.
//! Messages that lead to an earlier event of a line lead to a later one too.
ghost use Rattle.std.specs.Prelude.{◌≡◌, ℕ, suc, ◌+◌, ◌<◌, ◌≤◌, length, IfOk, MatchOption};
ghost use Rattle.chart.specs.Charts.{Place, at, chart_lines};
ghost use Rattle.chart.specs.Places.{IsEvent};
ghost use Rattle.closure.specs.Faults.{place_of};
ghost use Rattle.closure.specs.Cycle.Fronts.{IsLead, IsSomeLead};
ghost use Rattle.closure.specs.Cycle.Rounds.{IsRound, HasNoRound};

use crate::Numbers;
use crate::cycle::hearing::Hearing;
use crate::cycle::numbers::raise;
use chart::{EventNo, InstanceNo};
use std::alloc::{AllocError, Global};

/// Messages that lead from a send around to itself, and their number.
#[derive(Clone, Copy)]
pub(crate) struct Round {
    pub send: EventNo,
    pub messages: usize,
}

/// The front of no messages: the event itself.
fn own_front(
    alloc: Global,
    hearing: &Hearing<'_>,
    line: usize,
    index: usize,
) -> Result<Numbers, AllocError>
    requires { line < length hearing.now }
    ensures { IfOk result (IsLead hearing.now (at (suc line) index) 0) }
{
    let mut front = Numbers::zeros(alloc, hearing.len())?;
    front.set(line, index);
    Ok(front)
}

/// The front of one more message.
fn step_back(alloc: Global, hearing: &Hearing<'_>, front: &Numbers) -> Result<Numbers, AllocError>
    requires { IsSomeLead hearing.now front.now }
    ensures { IfOk result (λ next. (e : Place) (many : ℕ) → IsLead hearing.now e many front.now
        → IsLead hearing.now e (suc many) next) }
{
    let mut next = Numbers::zeros(alloc, hearing.len())?;
    for line in 0..hearing.len() {
        let index = front.at(line);
        if index > 0 {
            raise(&mut next, hearing.at(line, index - 1));
        }
    }
    Ok(next)
}

/// The front of this number of messages that lead to an event.
pub(crate) fn front_of(
    alloc: Global,
    hearing: &Hearing<'_>,
    event: &EventNo,
    messages: usize,
) -> Result<Numbers, AllocError>
    requires { IsEvent (chart_lines hearing.now) (place_of event.now) }
    ensures { IfOk result (IsLead hearing.now (place_of event.now) messages) }
{
    let mut front = own_front(alloc, hearing, event.instance.place(), event.index as usize)?;
    for message in 0..messages {
        let _ = message;
        front = step_back(alloc, hearing, &front)?;
    }
    Ok(front)
}

/// A round from the event at a place of a line, or from a later send of its line. No round from this event has fewer
/// messages. There is none if each round from this event has more than `most` messages.
pub(crate) fn round_through(
    alloc: Global,
    hearing: &Hearing<'_>,
    line: usize,
    place: usize,
    most: usize,
) -> Result<Option<Round>, AllocError>
    requires line { line < length hearing.now }
    requires place { place < length (chart_lines hearing.now (suc line)) }
    ensures { IfOk result (λ found. MatchOption found
        (HasNoRound (chart_lines hearing.now) (at (suc line) (suc place)) (most + 1))
        (λ round. IsRound (chart_lines hearing.now) round.messages (place_of round.send) × (round.messages ≤ most)
        × HasNoRound (chart_lines hearing.now) (at (suc line) (suc place)) round.messages)) }
{
    prove!(place < hearing.len_of(line));
    let mut front = own_front(alloc, hearing, line, place + 1)?;
    for before in 0..most {
        front = step_back(alloc, hearing, &front)?;
        let last = front.at(line);
        if place < last {
            let send = EventNo {
                instance: InstanceNo::at_place(line),
                index: last as u32,
            };
            return Ok(Some(Round {
                send,
                messages: before + 1,
            }));
        }
    }
    Ok(None)
}
