//! The sends that come before a receive, found backwards from it, with their ways to it.
//!
//! All events above a send on its line come directly before it, and a receive comes directly after its send. So the
//! search goes from the receive to its send, from there to the receives above it, to their sends, and so on. It visits
//! each event of a line once. Sends with fewer messages on their way are found sooner.
ghost use Rattle.std.specs.Prelude.{◌≡◌, ◌<◌, ◌≤◌, length, IfOk, OnOk, slice_get, Some};
ghost use Rattle.chart.specs.Charts.{chart_lines, BelongsTo};
ghost use Rattle.closure.specs.Faults.{place_of};
ghost use Rattle.closure.specs.Chain.Reaching.{AreAll, HasFollowed};

use crate::{Closure, Numbers};
use chart::EventNo;
use std::alloc::{AllocError, Global};

/// A send that comes before the receive from which the search begins.
#[derive(Clone, Copy)]
pub(crate) struct Reached {
    pub send: EventNo,
    /// The receive of its message.
    pub receive: EventNo,
    /// The number of a send that was found earlier and is below that receive on its line. The first send has none: its
    /// receive is the one from which the search begins.
    pub next: usize,
    /// The number of further messages on the way to the receive from which the search begins.
    pub depth: usize,
}

/// The send that was found with this number, from 0.
pub(crate) fn reached_at(found: &[Reached], number: usize) -> Reached
    requires { number < length found.now }
    ensures { slice_get found.now number ≡ Some result }
{
    found[number]
}

/// Follows an event above the send of this number: if it is a receive, its send is found too.
fn follow(
    closure: &Closure<'_>,
    found: &mut Vec<Reached>,
    number: usize,
    event: &EventNo,
) -> Result<(), AllocError>
    requires number { number < length found.old.items }
    requires depth { (reached : Reached) → slice_get found.old.items number ≡ Some reached → reached.depth ≤ number }
    ensures { OnOk result (HasFollowed (chart_lines closure.now) event.now number found.old.items found.new.items) }
{
    match closure.send_of(event) {
        None => Ok(()),
        Some(send) => {
            let depth = reached_at(found.as_slice(), number).depth + 1;
            found.push(Reached {
                send,
                receive: *event,
                next: number,
                depth,
            })?;
            Ok(())
        }
    }
}

/// All sends that come before the receive, whose send is given.
pub(crate) fn reached_from(
    alloc: Global,
    closure: &Closure<'_>,
    receive: &EventNo,
    send: &EventNo,
) -> Result<Vec<Reached>, AllocError>
    requires { BelongsTo (chart_lines closure.now) (place_of send.now) (place_of receive.now) }
    ensures { IfOk result (λ found. AreAll (chart_lines closure.now) (place_of receive.now) found.items) }
{
    let mut seen = Numbers::zeros(alloc, closure.lines().len())?;
    let mut found = Vec::new(alloc);
    found.push(Reached {
        send: *send,
        receive: *receive,
        next: 0,
        depth: 0,
    })?;
    let mut head = 0;
    while head < found.len() {
        let send = reached_at(found.as_slice(), head).send;
        let line = send.instance.place();
        let above = (send.index as usize).saturating_sub(1);
        let many = seen.at(line);
        if many < above {
            let event = EventNo {
                instance: send.instance,
                index: many as u32 + 1,
            };
            follow(closure, &mut found, head, &event)?;
            seen.set(line, many + 1);
        } else {
            head += 1;
        }
    }
    Ok(found)
}
