//! What a board does for a message, written by hand over the kit's rings: the peer in Rattle with which a board's times
//! are compared.
//!
//! Each instance records its own line: the events, and a report for each receive, in ranges of neighbouring events. Its
//! clock, an array of numbers, is what it knows of the others. The peer in C, `bench/peers/ring.h`, does the same.
use rtrb::{Consumer, Producer, RingBuffer};
use std::alloc::{AllocError, AllocFailed, Global};

/// The most instances.
const MAX_INSTANCES: usize = 32;

/// The most events on a line.
const MAX_EVENTS: usize = 4096;

/// A message: its name and its body.
#[derive(Drop)]
pub struct Message {
    pub name: [u8; 32],
    pub body: Vec<u8>,
}

/// The content of a slot of a ring.
#[derive(Drop)]
struct Parcel {
    message: Message,
    clock: [u32; MAX_INSTANCES],
}

#[derive(Clone, Copy, PartialEq, Eq)]
enum Kind {
    Send,
    Receive,
}

/// An event of a line.
#[derive(Clone, Copy)]
struct Event {
    kind: Kind,
    partner: u8,
    /// For a receive: how many events precede its run of neighbouring receives from its sender. So a report can pass
    /// over the whole run in one step.
    run_start: u32,
    name: [u8; 32],
}

/// Neighbouring events of a line: the number of the first one, from 1, and how many there are.
#[derive(Clone, Copy)]
pub struct Range {
    pub first: u32,
    pub count: u32,
}

/// The races of a receive, in the order of the line.
#[derive(Drop)]
pub struct Report {
    pub receive: u32,
    pub ranges: Vec<Range>,
}

/// Why a message isn't passed.
#[derive(Clone, Copy)]
pub enum Refusal {
    NoSuchInstance,
    LineFull,
    Memory,
}

impl From<AllocError> for Refusal {
    fn from(_e: AllocError) -> Refusal {
        Refusal::Memory
    }
}

impl<T: Drop> From<AllocFailed<T>> for Refusal {
    fn from(_e: AllocFailed<T>) -> Refusal {
        Refusal::Memory
    }
}

/// An instance with its ends of rings, at the places of the other instances. It has no ring to itself.
#[derive(Drop)]
pub struct Instance {
    alloc: Global,
    own: usize,
    instances: usize,
    clock: [u32; MAX_INSTANCES],
    events: Vec<Event>,
    reports: Vec<Report>,
    outgoing: Vec<Option<Producer<Parcel>>>,
    incoming: Vec<Option<Consumer<Parcel>>>,
}

/// Takes the greater one of each pair of entries.
fn merge(clock: &mut [u32; MAX_INSTANCES], other: &[u32; MAX_INSTANCES], instances: usize) {
    for (entry, other) in clock.iter_mut().zip(other.iter()).take(instances) {
        *entry = (*entry).max(*other);
    }
}

impl Event {
    fn is_receive_from(&self, from: u8) -> bool {
        self.kind == Kind::Receive && self.partner == from
    }
}

/// How many events precede the run of receives from this sender that the next receive would end.
fn next_run_start(events: &[Event], count: u32, from: u8) -> u32 {
    match events.last() {
        Some(last) if last.is_receive_from(from) => last.run_start,
        _ => count,
    }
}

/// Adds a range before all others of a report, which is made backwards.
fn add_range(ranges: &mut Vec<Range>, first: u32, last: u32) -> Result<(), AllocError> {
    let count = last.saturating_sub(first).saturating_add(1);
    if let Some(next) = ranges.last_mut() {
        if next.first == last.saturating_add(1) {
            next.first = first;
            next.count = next.count.saturating_add(count);
            return Ok(());
        }
    }
    ranges.push(Range { first, count })?;
    Ok(())
}

/// The races of the next receive, whose message's send knows the first `known` of these events. It goes back over the
/// later events, and over a run of receives from one sender in one step.
fn find_races(
    alloc: Global,
    events: &[Event],
    count: u32,
    from: u8,
    known: u32,
) -> Result<Vec<Range>, AllocError> {
    let mut ranges = Vec::new(alloc);
    let mut last = count;
    for _ in 0..count {
        if last <= known {
            break;
        }
        let Some(event) = events.get(last as usize - 1) else {
            break;
        };
        let start = match event.kind {
            Kind::Receive => event.run_start,
            Kind::Send => last - 1,
        };
        if !event.is_receive_from(from) {
            add_range(&mut ranges, start.max(known).saturating_add(1), last)?;
        }
        last = start;
    }
    ranges.as_mut_slice().reverse();
    Ok(ranges)
}

impl Instance {
    /// Sends a message to another instance. The message comes back if the ring is full.
    #[inline(always)]
    pub fn send(&mut self, to: usize, message: Message) -> Result<Option<Message>, Refusal> {
        let Some(Some(producer)) = self.outgoing.get_mut(to) else {
            return Err(Refusal::NoSuchInstance);
        };
        if producer.is_full() {
            return Ok(Some(message));
        }
        if self.events.len() >= MAX_EVENTS {
            return Err(Refusal::LineFull);
        }
        let index = self.events.len() as u32 + 1;
        let name = message.name;
        self.events.push(Event {
            kind: Kind::Send,
            partner: (to % 256) as u8,
            run_start: 0,
            name,
        })?;
        if let Some(entry) = self.clock.get_mut(self.own) {
            *entry = index;
        }
        let clock = self.clock;
        producer.push_reserved(Parcel { message, clock });
        Ok(None)
    }

    /// Receives the first message that waits from another instance, if there is one.
    #[inline(always)]
    pub fn receive(&mut self, from: usize) -> Result<Option<Message>, Refusal> {
        let Some(Some(consumer)) = self.incoming.get_mut(from) else {
            return Err(Refusal::NoSuchInstance);
        };
        let Ok(parcel) = consumer.peek() else {
            return Ok(None);
        };
        if self.events.len() >= MAX_EVENTS {
            return Err(Refusal::LineFull);
        }
        let count = self.events.len() as u32;
        let partner = (from % 256) as u8;
        let known = parcel.clock.get(self.own).copied().unwrap_or(0);
        let ranges = find_races(self.alloc, self.events.as_slice(), count, partner, known)?;
        let run_start = next_run_start(self.events.as_slice(), count, partner);
        self.reports.push(Report {
            receive: count + 1,
            ranges,
        })?;
        let name = parcel.message.name;
        self.events.push(Event {
            kind: Kind::Receive,
            partner,
            run_start,
            name,
        })?;
        merge(&mut self.clock, &parcel.clock, self.instances);
        match consumer.pop() {
            Ok(Parcel { message, clock: _ }) => Ok(Some(message)),
            Err(_) => Ok(None),
        }
    }

    /// The report of the last receive.
    #[inline(always)]
    pub fn last_report(&self) -> Option<&Report> {
        self.reports.last()
    }
}

/// An instance without rings.
fn alone(alloc: Global, own: usize, instances: usize) -> Instance {
    Instance {
        alloc,
        own,
        instances,
        clock: [0; MAX_INSTANCES],
        events: Vec::new(alloc),
        reports: Vec::new(alloc),
        outgoing: Vec::new(alloc),
        incoming: Vec::new(alloc),
    }
}

/// The two ends of a ring from one instance to another. An instance has no ring to itself.
fn ends_of_ring(
    alloc: Global,
    from: usize,
    to: usize,
    capacity: usize,
) -> Result<(Option<Producer<Parcel>>, Option<Consumer<Parcel>>), AllocError> {
    if from == to {
        return Ok((None, None));
    }
    let (producer, consumer) = RingBuffer::new(alloc, capacity)?;
    Ok((Some(producer), Some(consumer)))
}

/// Makes the ring from one of these instances to another.
fn connect(
    made: &mut [Instance],
    alloc: Global,
    from: usize,
    to: usize,
    capacity: usize,
) -> Result<(), AllocError> {
    let (producer, consumer) = ends_of_ring(alloc, from, to, capacity)?;
    if let Some(instance) = made.get_mut(from) {
        instance.outgoing.push(producer)?;
    }
    if let Some(instance) = made.get_mut(to) {
        instance.incoming.push(consumer)?;
    }
    Ok(())
}

/// This number of instances, with a ring each way between any two of them.
pub fn make_instances(
    alloc: Global,
    instances: usize,
    capacity: usize,
) -> Result<Vec<Instance>, AllocError> {
    let mut made = Vec::new(alloc);
    for own in 0..instances {
        made.push(alone(alloc, own, instances))?;
    }
    for from in 0..instances {
        for to in 0..instances {
            connect(made.as_mut_slice(), alloc, from, to, capacity)?;
        }
    }
    Ok(made)
}
