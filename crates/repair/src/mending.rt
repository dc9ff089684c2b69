//! A pair of events, and the chart in which it is enforced.
ghost use Rattle.std.specs.Prelude.{◌≡◌, ◌≢◌, ◌<◌, ◌≤◌, ◌-◌, ℕ, Some, true, length, map, IsTrue, ◌↔◌, IfOk, IfErr, OnOk};
ghost use Rattle.chart.specs.declared.event.Event.{Event};
ghost use Rattle.chart.specs.declared.line.TheConstants.{MAX_EVENTS};
ghost use Rattle.chart.specs.Charts.{Place, chart_lines, chart_event, IsReceiveFrom, IsPossible};
ghost use Rattle.chart.specs.Events.{is_in};
ghost use Rattle.chart.specs.Order.{IsEarlier, Before, IsCyclic, region_of_event};
ghost use Rattle.chart.specs.Reports.{AreReports};
ghost use Rattle.closure.specs.Closures.{IsPossibleChart};
ghost use Rattle.closure.specs.Faults.{place_of, IsFaulty};
ghost use Rattle.repair.specs.Messages.{IsRace, CanInform, informing};
ghost use Rattle.repair.specs.Growing.{message_of, line_with};
ghost use Rattle.repair.specs.Mends.{IsAsked, Informs, Mends, IsMadeOf, Fails};

use crate::asking::first_after;
use crate::error::MendError;
use crate::events::{end_behind, receives_among, send_after, sends_among};
use crate::growing::chart_with;
use crate::message::Message;
use chart::line_events::events_of;
use chart::{Chart, EventNo, MAX_EVENTS, Name, Report};
use closure::chain::{Link, shortest_chain};
use closure::{ChartError, Closure};
use std::alloc::{AllocError, Global};

/// What becomes of a pair of events.
#[derive(Debug, Drop)]
pub enum Mending {
    /// It is enforced already, by these steps.
    Enforced(Vec<Link>),
    /// Both events are in one coregion, which hides the pair.
    Hidden,
    /// The receive's send is before this event of the line, the first such one.
    Crossed(EventNo),
    /// This message of the line to the receive's sender isn't received there yet when that sends, the first such one.
    OnItsWay(EventNo),
    /// With this message more it is enforced, in this chart, which has these reports.
    Mended(Message, Chart, Vec<Report>),
}

/// Whether the earlier event is in the receive's coregion.
fn are_in_one_region(closure: &Closure<'_>, earlier: &EventNo, receive: &EventNo) -> bool
    requires earlier { IsEarlier (place_of earlier.now) (place_of receive.now) }
    requires receive { (q : ℕ) × IsReceiveFrom (chart_lines closure.now) q (place_of receive.now) }
    ensures { (m : Event) × (chart_event (chart_lines closure.now) (place_of earlier.now) ≡ Some m)
        × (is_in (region_of_event (chart_event (chart_lines closure.now) (place_of receive.now))) m ≡ result) }
{
    let events = events_of(closure.lines(), receive.instance);
    let region = events[receive.index as usize - 1].region();
    events[earlier.index as usize - 1].is_in(region)
}

/// The reports of a chart without a fault or a cycle, which is possible.
fn reports_of(alloc: Global, chart: &Chart) -> Result<Vec<Report>, MendError>
    requires faultless { (x : Place) → IsFaulty (chart_lines chart.now) x → ⊥ }
    requires acyclic { IsCyclic (chart_lines chart.now) → ⊥ }
    ensures possible { OnOk result (IsPossible (length chart.now) (chart_lines chart.now)) }
    ensures reports { IfOk result (λ reports. AreReports chart.now reports.items) }
    ensures err { IfErr result (λ e. e ≡ MendError.Memory) }
{
    match Closure::of(alloc, chart) {
        Ok(closure) => match closure.races() {
            Ok(reports) => Ok(reports),
            Err(AllocError) => Err(MendError::Memory),
        },
        Err(ChartError::Memory) => Err(MendError::Memory),
        Err(ChartError::ReceiveWithoutSend(_)) => unreachable!(),
        Err(ChartError::NameMismatch(_)) => unreachable!(),
        Err(ChartError::Cyclic) => unreachable!(),
    }
}

/// The chart with the message that informs of the earlier event, and its reports.
fn informed(
    alloc: Global,
    closure: &Closure<'_>,
    earlier: &EventNo,
    receive: &EventNo,
    message: &Message,
) -> Result<(Chart, Vec<Report>), MendError>
    requires possible { IsPossibleChart closure.now }
    requires asked { (s : Place) × (k : ℕ) × IsAsked (chart_lines closure.now) (place_of earlier.now)
        (place_of receive.now) s k × CanInform (chart_lines closure.now) earlier.now.instance k s
        × (message_of message.now ≡ informing earlier.now.instance k s message.now.name) }
    ensures ok { IfOk result (λ informed. Informs (length closure.now) (chart_lines closure.now) (place_of earlier.now)
        (place_of receive.now) message.now.name message.now informed.0) }
    ensures made { IfOk result (λ informed. informed.0 ≡ map (line_with (message_of message.now)) closure.now) }
    ensures reports { IfOk result (λ informed. AreReports informed.0 informed.1.items) }
    ensures err { IfErr result (Fails (chart_lines closure.now) (place_of earlier.now) (place_of receive.now)) }
{
    let lines = closure.lines();
    if events_of(lines, message.sender).len() == MAX_EVENTS {
        return Err(MendError::LineFull(message.sender));
    }
    if events_of(lines, message.receiver).len() == MAX_EVENTS {
        return Err(MendError::LineFull(message.receiver));
    }
    let chart = match chart_with(alloc, lines, message) {
        Ok(chart) => chart,
        Err(error) => return Err(error),
    };
    match reports_of(alloc, &chart) {
        Ok(reports) => Ok((chart, reports)),
        Err(error) => Err(error),
    }
}

/// What becomes of a race: the chart with one message more, in which it is enforced, or why there is none.
///
/// F7: there would be one, but a line has no room for it. F6: there is no memory.
pub fn mend_race(
    alloc: Global,
    closure: &Closure<'_>,
    earlier: &EventNo,
    receive: &EventNo,
    name: &Name,
) -> Result<Mending, MendError>
    requires possible { IsPossibleChart closure.now }
    requires race { IsRace (chart_lines closure.now) (place_of earlier.now) (place_of receive.now) }
    requires receive { (q : ℕ) × IsReceiveFrom (chart_lines closure.now) q (place_of receive.now) }
    ensures ok { IfOk result (Mends (length closure.now) (chart_lines closure.now) (place_of earlier.now)
        (place_of receive.now) name.now) }
    ensures made { IfOk result (IsMadeOf closure.now) }
    ensures err { IfErr result (Fails (chart_lines closure.now) (place_of earlier.now) (place_of receive.now)) }
{
    let Some(send) = closure.send_of(receive) else {
        unreachable!()
    };
    let events = events_of(closure.lines(), earlier.instance);
    let sent = end_behind(events, earlier.index as usize);
    let crossed = match first_after(closure, &send, earlier.instance, sent) {
        Ok(crossed) => crossed,
        Err(AllocError) => return Err(MendError::Memory),
    };
    match crossed {
        None => {}
        Some(index) => {
            return Ok(Mending::Crossed(EventNo {
                instance: earlier.instance,
                index: index as u32,
            }));
        }
    }
    let theirs = events_of(closure.lines(), send.instance);
    let passed = receives_among(theirs, earlier.instance, send.index as usize);
    if passed < sends_among(events, send.instance, sent) {
        return Ok(Mending::OnItsWay(EventNo {
            instance: earlier.instance,
            index: send_after(events, send.instance, passed, sent) as u32,
        }));
    }
    let message = Message {
        sender: earlier.instance,
        sent,
        receiver: send.instance,
        received: send.index as usize - 1,
        name: *name,
    };
    match informed(alloc, closure, earlier, receive, &message) {
        Ok((chart, reports)) => Ok(Mending::Mended(message, chart, reports)),
        Err(error) => Err(error),
    }
}

/// What becomes of a receive and an earlier event of its line: of a race the chart with one message more from its line
/// to that of the receive's sender, in which it is enforced, or why there is none.
///
/// F7: there would be one, but a line has no room for it. F6: there is no memory.
pub fn mend(
    alloc: Global,
    closure: &Closure<'_>,
    earlier: &EventNo,
    receive: &EventNo,
    name: &Name,
) -> Result<Mending, MendError>
    requires earlier { IsEarlier (place_of earlier.now) (place_of receive.now) }
    requires receive { (q : ℕ) × IsReceiveFrom (chart_lines closure.now) q (place_of receive.now) }
    ensures ok { IfOk result (Mends (length closure.now) (chart_lines closure.now) (place_of earlier.now)
        (place_of receive.now) name.now) }
    ensures made { IfOk result (IsMadeOf closure.now) }
    ensures err { IfErr result (Fails (chart_lines closure.now) (place_of earlier.now) (place_of receive.now)) }
{
    let instances = closure.len();
    prove!(instances >= 2);
    match shortest_chain(alloc, closure, earlier, receive) {
        Ok(None) => {}
        Ok(Some(links)) => return Ok(Mending::Enforced(links)),
        Err(AllocError) => return Err(MendError::Memory),
    }
    if are_in_one_region(closure, earlier, receive) {
        return Ok(Mending::Hidden);
    }
    mend_race(alloc, closure, earlier, receive, name)
}
