//! Ends of lanes at an instance.
ghost use Rattle.std.specs.Prelude.{◌≡◌};
ghost use Rattle.cmd_compare.specs.Ends.{end_of, is_at, other_of, end_there};

use chart::{Event, InstanceNo};

/// An end of a lane at an instance. It is the lane to another instance, or the lane from it.
#[derive(Clone, Copy)]
pub(crate) enum LaneEnd {
    To(InstanceNo),
    From(InstanceNo),
}

impl LaneEnd {
    /// The end at which the event is.
    pub(crate) fn of(event: &Event) -> LaneEnd
        ensures { result ≡ end_of event.now }
    {
        match event {
            Event::Send { to, .. } => LaneEnd::To(*to),
            Event::Receive { from, .. } => LaneEnd::From(*from),
        }
    }

    /// Whether the event is at this end.
    pub(crate) fn has(&self, event: &Event) -> bool
        ensures { result ≡ is_at self.now event.now }
    {
        match (self, event) {
            (LaneEnd::To(instance), Event::Send { to, .. }) => *to == *instance,
            (LaneEnd::From(instance), Event::Receive { from, .. }) => *from == *instance,
            _ => false,
        }
    }

    /// The same end in the other recording, in which the instances have these numbers.
    pub(crate) fn there(&self, others: &[InstanceNo]) -> LaneEnd
        ensures { result ≡ end_there others.now self.now }
    {
        match self {
            LaneEnd::To(instance) => LaneEnd::To(other_of(others, *instance)),
            LaneEnd::From(instance) => LaneEnd::From(other_of(others, *instance)),
        }
    }
}

/// The number of the instance in the other recording, or its own number if it has none there.
pub(crate) fn other_of(others: &[InstanceNo], instance: InstanceNo) -> InstanceNo
    ensures { result ≡ other_of others.now instance }
{
    match others.get(instance.place()) {
        Some(other) => *other,
        None => instance,
    }
}
