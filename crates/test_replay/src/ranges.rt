//! Tests that neighbouring events are one range, which no contract states.
use crate::calls::{are, event, holds, instance, name, put};
use chart::{Event, EventNo, EventRanges, Line};
use online_races::{race_ranges, races};
use std::alloc::Global;
use std::process::Abort;

/// The events of instance 1 with these numbers.
fn events(rt: &impl Abort, alloc: Global, indices: &[u32]) -> Vec<EventNo> {
    let mut events = Vec::new(alloc);
    for index in indices {
        put(rt, &mut events, event(rt, 1, *index));
    }
    events
}

#[test]
fn event_ranges(rt: HostRuntime) {
    let alloc = rt.alloc();
    let events = events(&rt, alloc, &[2, 3, 4, 7, 9, 10]);
    let ranges = EventRanges::of(alloc, events.as_slice()).expect(&rt, "ranges");
    are(&rt, "2 to 4, 7, and 9 to 10", ranges.as_slice().len(), 3);
    let listed = ranges.listed(alloc).expect(&rt, "a list");
    holds(
        &rt,
        "the same events",
        listed.as_slice() == events.as_slice(),
    );
}

/// A line with receives from these instances.
fn line_from(rt: &impl Abort, alloc: Global, senders: &[usize]) -> Line {
    let mut line = Line::new(alloc, instance(rt, 1));
    for sender in senders {
        let event = Event::Receive {
            from: instance(rt, *sender),
            name: name(rt, b"x"),
            region: 0,
        };
        line.push(event).expect(rt, "an event");
    }
    line
}

/// Asserts, for the first `before` events of the line and this entry, how many events the first range has, and how many
/// ranges there are.
fn has_ranges(
    rt: &impl Abort,
    alloc: Global,
    line: &Line,
    (before, entry): (usize, u32),
    (count, ranges): (usize, usize),
) {
    assert!(rt; before <= line.len());
    let sender = instance(rt, 2);
    let found = race_ranges(alloc, line.as_growing(), before, entry, sender, 0).expect(
        rt, "ranges",
    );
    let found = found.as_slice();
    are(rt, "ranges", found.len(), ranges);
    let first = found.first().expect(rt, "a range");
    are(rt, "events of the first range", first.count, count);
}

/// Among all six events the races are 2 to 4 and 6. Among the first four, with another entry, they are 3 and 4.
#[test]
fn runs_of_races(rt: HostRuntime) {
    let line = line_from(&rt, rt.alloc(), &[2, 3, 3, 3, 2, 4]);
    has_ranges(&rt, rt.alloc(), &line, (6, 1), (3, 2));
    has_ranges(&rt, rt.alloc(), &line, (4, 2), (2, 1));
}

#[test]
fn races_of_a_line(rt: HostRuntime) {
    let line = line_from(&rt, rt.alloc(), &[2, 3, 3, 3, 2, 4]);
    let found = races(rt.alloc(), &line, 1, instance(&rt, 2), 0).expect(&rt, "the races");
    let wanted = events(&rt, rt.alloc(), &[2, 3, 4, 6]);
    holds(&rt, "the races", found.as_slice() == wanted.as_slice());
}
