//! A behaviour that drives its instance.
ghost use Rattle.std.specs.Prelude.{◌≡◌};
ghost use Rattle.instances.specs.Driving.{meaning, IsRun};

use crate::acting::perform;
use crate::end::End;
use crate::gate::Gate;
use crate::trace::{Trace, add_turn};
use behaviour::{Answer, Behaviour};
use mailbox::Mailbox;
use std::alloc::{AllocError, Global};

/// Lets a behaviour drive the instance of a mailbox for at most `turns` turns, each of which is one call of
/// [`Behaviour::next`]. It returns the mailbox, the trace of all turns, and why they ended.
///
/// The behaviour gets the answer to each act at its next turn. Room for a turn is made before the behaviour is asked.
/// If this growth is refused (F6), it isn't asked.
pub fn drive<'a, G: Gate>(
    alloc: Global,
    mut mailbox: Mailbox<'a>,
    behaviour: &mut dyn Behaviour,
    turns: u32,
    gate: &G,
) -> (Mailbox<'a>, Trace, End)
    ensures { let does = ⟦<dyn Behaviour as Behaviour>⟧ behaviour.old.0 in
        (left : _) × (behaviour.new ≡ (behaviour.old.0, left))
        × IsRun (meaning does.act does.after) turns behaviour.old.1 mailbox.entry result.1 result.2
        (record { state = left; view = result.0 }) }
{
    let mut stretches = Vec::new(alloc);
    let mut last = Answer::Start;
    for turn in 0..turns {
        if let Err(AllocError) = stretches.reserve(1) {
            return (mailbox, Trace::of(stretches), End::Memory);
        }
        let act = behaviour.next(&last);
        let bare = act.bare();
        gate.before(mailbox.number(), turn + 1);
        match perform(&mut mailbox, act) {
            Some(answer) => {
                add_turn(&mut stretches, bare, Some(answer.bare()));
                last = answer;
            }
            None => {
                add_turn(&mut stretches, bare, None);
                return (mailbox, Trace::of(stretches), End::Stopped);
            }
        }
    }
    (mailbox, Trace::of(stretches), End::TurnsSpent)
}
