//! The events that must come before a receive, as numbers.
ghost use Rattle.std.specs.Prelude.{◌≡◌, ◌<◌, suc, length, IfOk};
ghost use Rattle.chart.specs.Charts.{chart_lines};
ghost use Rattle.closure.specs.Faults.{place_of};
ghost use Rattle.closure.specs.Rows.{entry};
ghost use Rattle.cmd_base.specs.Pairs.Sayings.{passing, comes_too};
ghost use Rattle.cmd_page.specs.Marks.Marking.{AreMarks};

use chart::line_events::events_of;
use chart::{Event, EventNo, InstanceNo};
use closure::chain::past;
use closure::{Closure, Numbers};
use std::alloc::{AllocError, Global};

/// The events that must come before a receive.
#[derive(Drop)]
pub struct Marks {
    /// For each line, the number of first events.
    pub before: Vec<u64>,
    /// Other events of its own line.
    pub also: Vec<u64>,
}

/// The numbers as a list.
fn listed(alloc: Global, numbers: &Numbers) -> Result<Vec<u64>, AllocError>
    ensures { IfOk result (λ list. list.items ≡ numbers.now) }
{
    let mut list = Vec::new(alloc);
    for place in 0..numbers.len() {
        list.push(numbers.at(place) as u64)?;
    }
    Ok(list)
}

/// The number for a line, or 0 if there is none.
fn count_of(numbers: &Numbers, instance: InstanceNo) -> usize
    ensures { result ≡ entry numbers.now instance }
{
    let place = instance.place();
    if place < numbers.len() {
        numbers.at(place)
    } else {
        0
    }
}

/// Whether the event at `place` is a receive from the sender, and isn't among the first `count` events.
fn comes_too(events: &[Event], count: usize, sender: InstanceNo, place: usize) -> bool
    requires { place < usize.MAX }
    ensures { result ≡ comes_too events.now count sender (suc place) }
{
    match events.get(place) {
        Some(event) => count < place + 1 && event.is_receive_from(sender),
        None => false,
    }
}

/// The numbers of the events above a receive that are receives from its sender, without the first `count` events.
fn also_before(
    alloc: Global,
    events: &[Event],
    count: usize,
    sender: InstanceNo,
    above: u32,
) -> Result<Vec<u64>, AllocError>
    ensures { IfOk result (λ list. list.items ≡ passing (comes_too events.now count sender) above) }
{
    let mut list = Vec::new(alloc);
    for place in 0..above {
        if comes_too(events, count, sender, place as usize) {
            list.push(place as u64 + 1)?;
        }
    }
    Ok(list)
}

/// The events of an instance's line of the chart.
pub fn line_of<'a>(closure: &'a Closure<'_>, instance: InstanceNo) -> &'a [Event]
    ensures { result.now ≡ chart_lines closure.now instance }
{
    events_of(closure.lines(), instance)
}

/// The events that must come before a receive of the chart. There are none if the event is no receive.
pub fn marks_of(
    alloc: Global,
    closure: &Closure<'_>,
    receive: &EventNo,
) -> Result<Marks, AllocError>
    ensures { IfOk result (λ marks. AreMarks (length closure.now) (chart_lines closure.now) receive.now marks.before.items marks.also.items) }
{
    let Some(send) = closure.send_of(receive) else {
        return Ok(Marks {
            before: Vec::new(alloc),
            also: Vec::new(alloc),
        });
    };
    let counts = past(closure, receive)?;
    let events = line_of(closure, receive.instance);
    let count = count_of(&counts, receive.instance);
    Ok(Marks {
        before: listed(alloc, &counts)?,
        also: also_before(
            alloc,
            events,
            count,
            send.instance,
            receive.index.saturating_sub(1),
        )?,
    })
}
