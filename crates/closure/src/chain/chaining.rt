//! Shortest chains of direct steps.
ghost use Rattle.std.specs.Prelude.{◌≡◌, ◌<◌, ◌+◌, ◌^◌, ◌*◌, ◌∷◌, ◌↔◌, ℕ, List, [], length, slice_get, Option, Some};
ghost use Rattle.std.specs.Prelude.{IsTrue, IfOk, MatchOption};
ghost use Rattle.chart.specs.Charts.{Chart, Place, chart_lines, IsSendTo, IsReceiveFrom};
ghost use Rattle.chart.specs.Order.{Before};
ghost use Rattle.closure.specs.Faults.{place_of};
ghost use Rattle.closure.specs.Searches.{IsEarlierReceive};
ghost use Rattle.closure.specs.Chain.Chains.{IsShortestChain, Lead};
ghost use Rattle.closure.specs.Chain.Reaching.{IsTrail, IsSomeTrail, IsUnder, AreSteps, GivesSteps, IsNearest, IsChainBy};
ghost use Rattle.closure.specs.declared.chain.reaching.Reached.{Reached};

use crate::Closure;
use crate::chain::link::{Link, Rule};
use crate::chain::reaching::{Reached, reached_at, reached_from};
use chart::{EventNo, InstanceNo};
use std::alloc::{AllocError, Global};

/// The number of direct steps from an event to the receive by a send that was reached. There is none unless the event
/// is this send or above it on its line.
fn steps_by(reached: &Reached, event: &EventNo) -> Option<usize>
    requires { reached.now.depth + 1 < 2 ^ 63 }
    ensures { GivesSteps reached.now (place_of event.now) result }
{
    if event.instance != reached.send.instance {
        return None;
    }
    if event.index == 0 {
        return None;
    }
    if event.index > reached.send.index {
        return None;
    }
    if event.index == reached.send.index {
        return Some(2 * reached.depth + 1);
    }
    Some(2 * reached.depth + 2)
}

/// The best so far, as number and steps, or the next one if it has fewer steps.
fn better(
    best: Option<(usize, usize)>,
    number: usize,
    steps: Option<usize>,
) -> Option<(usize, usize)>
    ensures { (found : List Reached) (x : Reached) (e : Place) → slice_get found number ≡ Some x → GivesSteps x e steps
        → IsNearest found e number best → IsNearest found e (number + 1) result }
{
    match steps {
        None => best,
        Some(steps) => match best {
            None => Some((number, steps)),
            Some((first, least)) => {
                if steps < least {
                    Some((number, steps))
                } else {
                    Some((first, least))
                }
            }
        },
    }
}

/// The send with the fewest steps from the event, among those that were reached: its number and these steps.
fn nearest(found: &[Reached], event: &EventNo) -> Option<(usize, usize)>
    requires short { length found.now < 2 ^ 63 }
    requires trail { IsSomeTrail found.now }
    ensures { IsNearest found.now (place_of event.now) (length found.now) result }
{
    let mut best = None;
    for number in 0..found.len() {
        let reached = reached_at(found, number);
        best = better(best, number, steps_by(&reached, event));
    }
    best
}

/// The link from the event to the send that was reached, unless they are the same.
fn first_links(alloc: Global, reached: &Reached, event: &EventNo) -> Result<Vec<Link>, AllocError>
    requires { IsUnder reached.now (place_of event.now) }
    ensures { IfOk result (λ links. (c : Chart) (q k : ℕ) → IsSendTo c q (place_of reached.now.send)
        → AreSteps reached.now (place_of event.now) k
        → Lead c (place_of event.now) (place_of reached.now.send) links.items
        × (length links.items + 2 * reached.now.depth + 1 ≡ k)) }
{
    let mut links = Vec::new(alloc);
    if event.index != reached.send.index {
        links.push(Link {
            earlier: *event,
            later: reached.send,
            rule: Rule::BeforeSend,
        })?;
    }
    Ok(links)
}

/// The links that lead from the event to the receive, by the send of this number.
fn links_by(
    alloc: Global,
    found: &[Reached],
    number: usize,
    event: &EventNo,
) -> Result<Vec<Link>, AllocError>
    requires trail { IsSomeTrail found.now }
    requires under { (x : Reached) × (slice_get found.now number ≡ Some x) × IsUnder x (place_of event.now) }
    ensures { IfOk result (λ links. (c : Chart) (r : Place) → IsTrail c r found.now
        → IsChainBy c r found.now number (place_of event.now) links.items) }
{
    let mut links = first_links(alloc, &reached_at(found, number), event)?;
    let mut at = number;
    while at > 0 {
        let reached = reached_at(found, at);
        let next = reached_at(found, reached.next);
        links.push(Link {
            earlier: reached.send,
            later: reached.receive,
            rule: Rule::Message,
        })?;
        links.push(Link {
            earlier: reached.receive,
            later: next.send,
            rule: Rule::BeforeSend,
        })?;
        at = reached.next;
    }
    let last = reached_at(found, 0);
    links.push(Link {
        earlier: last.send,
        later: last.receive,
        rule: Rule::Message,
    })?;
    Ok(links)
}

/// Whether the event is above the receive on its line, and is a receive from this sender.
fn is_earlier_receive(
    closure: &Closure<'_>,
    event: &EventNo,
    receive: &EventNo,
    sender: InstanceNo,
) -> bool
    ensures { IsTrue result ↔ IsEarlierReceive (chart_lines closure.now) sender (place_of event.now)
        (place_of receive.now) }
{
    if event.instance != receive.instance {
        return false;
    }
    if event.index >= receive.index {
        return false;
    }
    match closure.send_of(event) {
        Some(send) => send.instance == sender,
        None => false,
    }
}

/// The one link between two receives of a line from the same sender.
fn one_link(alloc: Global, earlier: &EventNo, receive: &EventNo) -> Result<Vec<Link>, AllocError>
    ensures { IfOk result (λ links. links.items ≡ record {
      earlier = earlier.now;
      later = receive.now;
      rule = Rule.SameSender;
    } ∷ []) }
{
    let mut links = Vec::new(alloc);
    links.push(Link {
        earlier: *earlier,
        later: *receive,
        rule: Rule::SameSender,
    })?;
    Ok(links)
}

/// A shortest chain of direct steps that leads from an event to a receive, in order. There is none exactly if the
/// enforced order doesn't put the event before the receive.
///
/// It looks at each event of the chart at most once. F6: it fails only if there is no memory.
pub fn shortest_chain(
    alloc: Global,
    closure: &Closure<'_>,
    earlier: &EventNo,
    receive: &EventNo,
) -> Result<Option<Vec<Link>>, AllocError>
    requires { (q : ℕ) × IsReceiveFrom (chart_lines closure.now) q (place_of receive.now) }
    ensures { IfOk result (λ found. MatchOption found
        (Before (chart_lines closure.now) (place_of earlier.now) (place_of receive.now) → ⊥)
        (λ links. Before (chart_lines closure.now) (place_of earlier.now) (place_of receive.now)
        × IsShortestChain (chart_lines closure.now) (place_of earlier.now) (place_of receive.now) links.items)) }
{
    let Some(send) = closure.send_of(receive) else {
        unreachable!()
    };
    if is_earlier_receive(closure, earlier, receive, send.instance) {
        return Ok(Some(one_link(alloc, earlier, receive)?));
    }
    let found = reached_from(alloc, closure, receive, &send)?;
    match nearest(found.as_slice(), earlier) {
        None => Ok(None),
        Some((number, _)) => Ok(Some(links_by(alloc, found.as_slice(), number, earlier)?)),
    }
}
