//! Verdicts on an earlier and a later event of a line.
ghost use Rattle.std.specs.Prelude.{◌≡◌};
ghost use Rattle.chart.specs.Events.{ith};
ghost use Rattle.cmd_compare.specs.Verdicts.{verdict_by, verdict_at};

use chart::Event;

/// The verdict on an earlier and a later event of a line in a recording.
#[derive(Clone, Copy, Debug, PartialEq, Eq)]
pub enum Verdict {
    /// Each run of the chart's events and causes has them in this order.
    Enforced,
    /// They may come in the opposite order.
    Race,
    /// They may come in the opposite order, but one coregion has both. So no report has the pair.
    Unclaimed,
}

/// A line, and the front of each of its receives.
#[derive(Clone, Copy)]
pub(crate) struct Side<'a> {
    pub events: &'a [Event],
    pub fronts: &'a [usize],
}

/// The verdict on an event and a later receive. It depends on whether both are from one instance, whether one coregion
/// has both, and whether the event is within the receive's front.
fn verdict_by(are_from_one: bool, are_in_one_region: bool, is_first: bool) -> Verdict
    ensures { result ≡ verdict_by are_from_one are_in_one_region is_first }
{
    if are_from_one {
        Verdict::Enforced
    } else if are_in_one_region {
        Verdict::Unclaimed
    } else if is_first {
        Verdict::Enforced
    } else {
        Verdict::Race
    }
}

/// The event with this number, if the line has one.
pub fn event_at(events: &[Event], index: usize) -> Option<Event>
    ensures { result ≡ ith events.now index }
{
    if index == 0 {
        return None;
    }
    match events.get(index - 1) {
        Some(event) => Some(*event),
        None => None,
    }
}

fn front_at(fronts: &[usize], index: usize) -> Option<usize>
    ensures { result ≡ ith fronts.now index }
{
    if index == 0 {
        return None;
    }
    match fronts.get(index - 1) {
        Some(front) => Some(*front),
        None => None,
    }
}

/// The verdict on the two events with these numbers.
pub(crate) fn verdict_at(side: &Side<'_>, earlier: usize, later: usize) -> Verdict
    ensures { result ≡ verdict_at side.now.events.now side.now.fronts.now earlier later }
{
    let Some(first) = event_at(side.events, earlier) else {
        return Verdict::Race;
    };
    let Some(second) = event_at(side.events, later) else {
        return Verdict::Race;
    };
    let Event::Receive { from, region, .. } = second else {
        return Verdict::Enforced;
    };
    let Some(front) = front_at(side.fronts, later) else {
        return Verdict::Race;
    };
    verdict_by(
        first.is_receive_from(from),
        first.is_in(region),
        earlier <= front,
    )
}
