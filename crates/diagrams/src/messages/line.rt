//! The lines of a chart, made from the ends of its messages.
ghost use Rattle.std.specs.Prelude.{◌≡◌, ◌≢◌, ◌<◌, ◌≤◌, ◌+◌, ◌++◌, ◌∷◌, [], length, drop, IfOk, OnOk};
ghost use Rattle.chart.specs.Events.{greatest_region, partner_of, MayHaveRegion, region_of as chart_region_of};
ghost use Rattle.chart.specs.declared.line.TheConstants.{MAX_EVENTS};
ghost use Rattle.diagrams.specs.Messages.Regions.{are_together, goes_on, begins, region_of, event_of, line_of};
ghost use Rattle.diagrams.specs.Messages.Opening.{HasRoom, IsOpen};
ghost use Rattle.diagrams.specs.Messages.Turns.{own_ends};

use crate::messages::end::{End, ends_in_turn};
use chart::{Event, InstanceNo, Line, LineError};
use std::alloc::{AllocError, Global};

/// Whether both are receives of one row.
fn are_together(one: &End, other: &End) -> bool
    ensures { result ≡ are_together one.now other.now }
{
    !one.sends && (!other.sends && one.turn == other.turn)
}

/// Whether an end is in the coregion of the last one.
fn goes_on(last: Option<End>, end: &End) -> bool
    ensures { result ≡ goes_on last end.now }
{
    match last {
        None => false,
        Some(last) => are_together(&last, end),
    }
}

/// Whether an end and the next one are together.
fn begins(end: &End, others: &[End]) -> bool
    ensures { result ≡ begins end.now others.now }
{
    match others {
        [] => false,
        [next, ..] => are_together(end, next),
    }
}

/// The coregion of an end.
fn region_of(last: Option<End>, greatest: u32, end: &End, others: &[End]) -> u32
    requires { greatest ≤ 4096 }
    ensures { result ≡ region_of last greatest end.now others.now }
{
    if goes_on(last, end) {
        greatest
    } else if begins(end, others) {
        greatest + 1
    } else {
        0
    }
}

/// The event of an end.
fn event_of(end: &End, region: u32) -> Event
    ensures { result ≡ event_of end.now region }
{
    if end.sends {
        Event::Send {
            to: end.partner,
            name: end.name,
        }
    } else {
        Event::Receive {
            from: end.partner,
            name: end.name,
            region,
        }
    }
}

/// Appends an event, for which the line has room.
fn push(line: &mut Line, event: Event) -> Result<(), AllocError>
    requires region { MayHaveRegion line.old.events (chart_region_of event) }
    requires apart { partner_of event ≢ line.old.instance }
    requires room { length line.old.events < MAX_EVENTS }
    ensures { OnOk result (line.new ≡ record line.old { events = line.old.events ++ event ∷ [] }) }
{
    match line.push(event) {
        Ok(()) => Ok(()),
        Err(LineError::Memory) => Err(AllocError),
        Err(LineError::ToItself | LineError::LineFull) => unreachable!(),
    }
}

/// The greatest coregion of a line.
fn greatest_region(line: &Line) -> u32
    ensures value { result ≡ greatest_region line.now.events }
    ensures limit { result ≤ 4096 }
{
    let growing = line.as_growing();
    let length = growing.len();
    prove!(length <= 4096);
    growing.greatest_region()
}

/// The ends after the one at this place.
fn behind(ends: &[End], place: usize) -> &[End]
    requires { place < length ends.now }
    ensures { result.now ≡ drop (place + 1) ends.now }
{
    &ends[place + 1..]
}

/// Appends the event of an end to a line.
fn add_end(line: &mut Line, last: Option<End>, end: &End, others: &[End]) -> Result<(), AllocError>
    requires coregion { IsOpen last line.old.events (end.now ∷ others.now) }
    requires room { HasRoom line.old.instance line.old.events (end.now ∷ others.now) }
    ensures { OnOk result (line.new ≡ record line.old {
      events = line.old.events ++ event_of end.now (region_of last (greatest_region line.old.events) end.now others.now) ∷ [];
    }) }
{
    let region = region_of(last, greatest_region(line), end, others);
    push(line, event_of(end, region))
}

/// The line of an instance, made from the ends of all messages. It has room for its own ends.
pub(crate) fn line_of(alloc: Global, instance: InstanceNo, ends: &[End]) -> Result<Line, AllocError>
    requires { HasRoom instance [] (own_ends instance ends.now) }
    ensures { IfOk result (λ line. line ≡ line_of instance ends.now) }
{
    let in_turn = ends_in_turn(alloc, instance, ends)?;
    let own = in_turn.as_slice();
    let mut line = Line::new(alloc, instance);
    let mut last = None;
    for (place, end) in own.iter().enumerate() {
        let others = behind(own, place);
        add_end(&mut line, last, end, others)?;
        last = Some(*end);
    }
    Ok(line)
}
