//! A shortest cycle of direct steps.
ghost use Rattle.std.specs.Prelude.{◌≡◌, ◌++◌, ◌∷◌, [], ◌<◌, ◌≤◌, ◌↔◌, ℕ, length, take, drop, slice_get, Some, All, IsTrue, IfOk, OnOk, MatchOption};
ghost use Rattle.closure.specs.declared.chain.link.Link.{Link};
ghost use Rattle.chart.specs.Charts.{Place, at, chart_lines, HasNoSend};
ghost use Rattle.chart.specs.declared.line.TheConstants.{MAX_EVENTS};
ghost use Rattle.chart.specs.Order.{IsCyclic};
ghost use Rattle.closure.specs.Cycle.Cycles.{BeginsWithLeast, IsShortestCycle};
ghost use Rattle.closure.specs.Rows.{entry};
ghost use Rattle.closure.specs.Cycle.Rounds.{IsRound, AreLinksOf};
ghost use Rattle.closure.specs.Faults.{place_of, IsSooner};

use crate::Numbers;
use crate::chain::{Link, Rule};
use crate::cycle::finding::shortest_round;
use crate::cycle::hearing::Hearing;
use crate::cycle::receiving::receive_of;
use crate::cycle::round::{Round, front_of};
use chart::{Chart, EventNo, InstanceNo};
use std::alloc::{AllocError, Global};

/// The event that a front has for the receive's line.
fn next_send(front: &Numbers, receive: &EventNo) -> EventNo
    requires line { receive.now.instance ≤ length front.now }
    requires index { entry front.now receive.now.instance ≤ MAX_EVENTS }
    ensures { place_of result ≡ at receive.now.instance (entry front.now receive.now.instance) }
{
    let line = receive.instance.place();
    EventNo {
        instance: InstanceNo::at_place(line),
        index: front.at(line) as u32,
    }
}

/// Adds the links of a message: from its send to its receive, and from there to the next send.
fn link_on(
    links: &mut Vec<Link>,
    send: &EventNo,
    receive: &EventNo,
    next: &EventNo,
) -> Result<(), AllocError>
    ensures { OnOk result (links.new.items
        ≡ (links.old.items ++ record { earlier = send.now; later = receive.now; rule = Rule.Message } ∷ [])
        ++ record { earlier = receive.now; later = next.now; rule = Rule.BeforeSend } ∷ []) }
{
    links.push(Link {
        earlier: *send,
        later: *receive,
        rule: Rule::Message,
    })?;
    links.push(Link {
        earlier: *receive,
        later: *next,
        rule: Rule::BeforeSend,
    })?;
    Ok(())
}

/// The links of a round: from each message's send to its receive, and from there to the next send.
fn links_of(alloc: Global, hearing: &Hearing<'_>, round: &Round) -> Result<Vec<Link>, AllocError>
    requires { IsRound (chart_lines hearing.now) round.now.messages (place_of round.now.send) }
    ensures { IfOk result (λ links. AreLinksOf (chart_lines hearing.now) round.now links.items) }
{
    let mut links = Vec::new(alloc);
    let mut send = round.send;
    let mut left = round.messages;
    while left > 0 {
        left -= 1;
        let front = front_of(alloc, hearing, &round.send, left)?;
        let receive = receive_of(hearing.lines(), &send);
        let next = next_send(&front, &receive);
        link_on(&mut links, &send, &receive, &next)?;
        send = next;
    }
    Ok(links)
}

/// Whether one event is sooner than the other, by instance and number.
fn is_sooner(event: &EventNo, other: &EventNo) -> bool
    ensures { IsTrue result ↔ IsSooner (place_of event.now) (place_of other.now) }
{
    if event.instance.number() == other.instance.number() {
        return event.index < other.index;
    }
    event.instance.number() < other.instance.number()
}

/// The place of the link that begins with the least event.
fn least_at(links: &[Link]) -> usize
    requires { 1 ≤ length links.now }
    ensures within { result < length links.now }
    ensures least { (first : Link) → slice_get links.now result ≡ Some first
        → All (λ link. IsSooner (place_of link.earlier) (place_of first.earlier) → ⊥) links.now }
{
    let mut least = 0;
    for place in 0..links.len() {
        if is_sooner(&links[place].earlier, &links[least].earlier) {
            least = place;
        }
    }
    least
}

/// The links of a cycle, beginning with its least event.
fn from_least(alloc: Global, links: &[Link]) -> Result<Vec<Link>, AllocError>
    requires { 1 ≤ length links.now }
    ensures rotated { IfOk result (λ rotated. (place : ℕ) × (rotated.items ≡ drop place links.now ++ take place links.now)) }
    ensures least { IfOk result (λ rotated. BeginsWithLeast rotated.items) }
{
    let least = least_at(links);
    let mut rotated = Vec::new(alloc);
    for link in &links[least..] {
        rotated.push(*link)?;
    }
    for link in &links[..least] {
        rotated.push(*link)?;
    }
    Ok(rotated)
}

/// A shortest cycle of direct steps, beginning with its least event, each step with its rule. There is none exactly if
/// no event of the chart comes before itself.
///
/// It goes back from each event by fewer messages than the best cycle so far has. It goes back by at most one message
/// more than there are lines. F6: it fails only if there is no memory.
pub fn shortest_cycle(alloc: Global, chart: &Chart) -> Result<Option<Vec<Link>>, AllocError>
    requires { (r : Place) → HasNoSend (chart_lines chart.now) r → ⊥ }
    ensures { IfOk result (λ found. MatchOption found (IsCyclic (chart_lines chart.now) → ⊥)
        (λ links. IsShortestCycle (chart_lines chart.now) links.items)) }
{
    let hearing = Hearing::of(alloc, chart.lines())?;
    let Some(round) = shortest_round(alloc, &hearing)? else {
        return Ok(None);
    };
    let links = links_of(alloc, &hearing, &round)?;
    Ok(Some(from_least(alloc, links.as_slice())?))
}
