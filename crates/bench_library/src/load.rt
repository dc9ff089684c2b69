//! The load of a board: which messages are passed, among how many instances, on lanes of how many slots.
use anyhow::bail;
use behaviour::BareAct;
use chart::{Chart, InstanceNo, MAX_EVENTS, Name};
use std::alloc::Global;
use std::fmt;

/// The directions of the messages.
#[derive(Clone, Copy, Debug, PartialEq, Eq)]
pub enum Pattern {
    /// The first instance of each pair sends to the second.
    OneWay,
    /// The two instances of each pair send to each other in turn.
    ToAndFro,
    /// Each instance sends to each other one, and then receives from each.
    AllToAll,
}

impl fmt::Display for Pattern {
    fn fmt<W: fmt::Write>(&self, f: &mut fmt::Formatter<W>) -> fmt::Result {
        match self {
            Pattern::OneWay => write!(f, "one way"),
            Pattern::ToAndFro => write!(f, "to and fro"),
            Pattern::AllToAll => write!(f, "all to all"),
        }
    }
}

/// A pattern among an even number of instances, on lanes with this number of slots, for at most this number of rounds.
#[derive(Clone, Copy, Debug)]
pub struct Load {
    pub pattern: Pattern,
    pub instances: usize,
    pub capacity: usize,
    pub most: usize,
}

impl fmt::Display for Load {
    fn fmt<W: fmt::Write>(&self, f: &mut fmt::Formatter<W>) -> fmt::Result {
        let messages = self.messages();
        let events = self.events();
        write!(
            f,
            "{},{},{},{messages},{events}",
            self.pattern, self.instances, self.capacity
        )
    }
}

/// The number of events of a chart.
pub fn events_of(chart: &Chart) -> usize {
    let mut events = 0usize;
    for line in chart.lines() {
        events = events.saturating_add(line.len());
    }
    events
}

/// The instance at this place, from 0.
fn instance(place: usize) -> anyhow::Result<InstanceNo> {
    match InstanceNo::new(place.saturating_add(1)) {
        Some(instance) => Ok(instance),
        None => bail!("a board has at most 32 instances"),
    }
}

/// A send with this name to the partner, or without a name a receive from it.
fn act_with(partner: InstanceNo, name: Option<Name>) -> BareAct {
    match name {
        Some(name) => BareAct::Send(partner, name),
        None => BareAct::Receive(partner),
    }
}

fn listed(alloc: Global, acts: &[BareAct]) -> anyhow::Result<Vec<BareAct>> {
    Ok(acts.to_vec(alloc)?)
}

impl Load {
    /// The number of other instances with which an instance exchanges messages.
    fn others(self) -> usize {
        match self.pattern {
            Pattern::OneWay | Pattern::ToAndFro => 1,
            Pattern::AllToAll => self.instances.saturating_sub(1),
        }
    }

    /// The number of messages that an instance sends and receives in a round.
    fn in_a_round(self) -> usize {
        match self.pattern {
            Pattern::OneWay => 1,
            Pattern::ToAndFro | Pattern::AllToAll => self.others().saturating_mul(2),
        }
    }

    /// The number of rounds: as many as a line has room for, but at most `most`.
    fn rounds(self) -> usize {
        self.most.min(MAX_EVENTS / self.in_a_round().max(1))
    }

    /// The number of events of all instances at the end.
    pub fn events(self) -> usize {
        let each = self.in_a_round().saturating_mul(self.rounds());
        self.instances.saturating_mul(each)
    }

    /// The number of messages that are passed.
    pub fn messages(self) -> usize {
        self.events() / 2
    }

    /// The partner of the instance at this place: the other one of the pair.
    fn partner(place: usize) -> anyhow::Result<InstanceNo> {
        if place % 2 == 0 {
            instance(place.saturating_add(1))
        } else {
            instance(place - 1)
        }
    }

    /// Adds sends with this name to all others, or receives from all of them.
    fn add_each(
        self,
        acts: &mut Vec<BareAct>,
        place: usize,
        name: Option<Name>,
    ) -> anyhow::Result<()> {
        for other in 0..self.instances {
            if other != place {
                acts.push(act_with(instance(other)?, name))?;
            }
        }
        Ok(())
    }

    /// Sends to all others, and then receives from all of them.
    fn with_all(self, alloc: Global, place: usize, name: Name) -> anyhow::Result<Vec<BareAct>> {
        let mut acts = Vec::new(alloc);
        self.add_each(&mut acts, place, Some(name))?;
        self.add_each(&mut acts, place, None)?;
        Ok(acts)
    }

    /// The acts of the instance at this place in a round.
    fn round(self, alloc: Global, place: usize) -> anyhow::Result<Vec<BareAct>> {
        let name = Name::new(b"m")?;
        let partner = Load::partner(place)?;
        let send = BareAct::Send(partner, name);
        let receive = BareAct::Receive(partner);
        match self.pattern {
            Pattern::OneWay if place % 2 == 0 => listed(alloc, &[send]),
            Pattern::OneWay => listed(alloc, &[receive]),
            Pattern::ToAndFro if place % 2 == 0 => listed(alloc, &[send, receive]),
            Pattern::ToAndFro => listed(alloc, &[receive, send]),
            Pattern::AllToAll => self.with_all(alloc, place, name),
        }
    }

    /// All acts of the instance at this place.
    pub fn acts(self, alloc: Global, place: usize) -> anyhow::Result<Vec<BareAct>> {
        let round = self.round(alloc, place)?;
        let mut acts = Vec::new(alloc);
        for _ in 0..self.rounds() {
            acts.extend_from_slice(round.as_slice())?;
        }
        Ok(acts)
    }
}
