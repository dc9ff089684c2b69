//! Answers as numbers.
ghost use Rattle.std.specs.Prelude.{◌≡◌};
ghost use Rattle.c_board.specs.Receiving.{found_with, arrived_after};
ghost use Rattle.c_board.specs.declared.found.Arrived.{Arrived};
ghost use Rattle.msc.specs.Answers.{code_of, done_code, found_code, number_after};
ghost use Rattle.msc.specs.Answers.{event_from, filled_event};

use crate::answers::MscEvent;
use board::Peek;
use c_board::{Arrived, EventInfo, Found, Numbered, Numbering};

/// The number of a refusal, below 0. Each misuse is -100.
#[inline(always)]
pub(crate) fn code_of<E: Numbered>(refusal: E) -> i32
    ensures { result ≡ code_of (E.number Numbering.Alike refusal) }
{
    -(refusal.number(Numbering::Alike) as i32)
}

/// The number of a receive's answer. If a message came, its description is written to `output`.
#[inline(always)]
pub(crate) fn found_code<E: Numbered>(answer: Result<Found, E>, output: &mut Arrived) -> i32
    ensures code { result ≡ found_code (E.number Numbering.Alike) answer }
    ensures output { output.new ≡ arrived_after output.old answer }
{
    match answer {
        Ok(Found::Message(arrived)) => {
            *output = arrived;
            0
        }
        Ok(Found::Nothing) => 1,
        Ok(Found::Ended) => 2,
        Err(refusal) => code_of(refusal),
    }
}

/// The number of a receive's answer, if the message was described elsewhere.
#[inline(always)]
pub(crate) fn peek_code<E: Numbered>(answer: Result<Peek, E>) -> i32
    ensures { (output : Arrived) → result ≡ found_code (E.number Numbering.Alike) (found_with answer output) }
{
    match answer {
        Ok(Peek::Message) => 0,
        Ok(Peek::Nothing) => 1,
        Ok(Peek::Ended) => 2,
        Err(refusal) => code_of(refusal),
    }
}

/// The number of a call that was done or refused.
pub(crate) fn done_code<E: Numbered>(answer: Result<(), E>) -> i32
    ensures { result ≡ done_code (E.number Numbering.Alike) answer }
{
    match answer {
        Ok(()) => 0,
        Err(refusal) => code_of(refusal),
    }
}

/// The number of a call that returned a count or was refused, and the count.
pub(crate) fn count_code<E: Numbered>(answer: Result<usize, E>, count: &mut usize) -> i32
    ensures code { result ≡ done_code (E.number Numbering.Alike) answer }
    ensures count { count.new ≡ number_after count.old answer }
{
    match answer {
        Ok(counted) => {
            *count = counted;
            0
        }
        Err(refusal) => code_of(refusal),
    }
}

/// The number of a send that was made or refused, and its first event.
pub(crate) fn first_code<E: Numbered>(answer: Result<u32, E>, event: &mut u32) -> i32
    ensures code { result ≡ done_code (E.number Numbering.Alike) answer }
    ensures event { event.new ≡ number_after event.old answer }
{
    match answer {
        Ok(first) => {
            *event = first;
            0
        }
        Err(refusal) => code_of(refusal),
    }
}

/// The description of an event, as C reads it.
fn event_from(output: EventInfo) -> MscEvent
    ensures { result ≡ event_from output }
{
    MscEvent {
        receives: if output.receives { 1 } else { 0 },
        partner: output.partner,
        region: output.region,
        name_length: output.name,
    }
}

/// The number of a call that described an event or was refused, and the description.
pub(crate) fn event_code<E: Numbered>(answer: Result<EventInfo, E>, event: &mut MscEvent) -> i32
    ensures code { result ≡ done_code (E.number Numbering.Alike) answer }
    ensures event { event.new ≡ filled_event event.old answer }
{
    match answer {
        Ok(output) => {
            *event = event_from(output);
            0
        }
        Err(refusal) => code_of(refusal),
    }
}
