//! The events of a line.
use crate::instance::InstanceNo;
use crate::name::Name;

/// An event of an instance's line: the instance sends a message, or receives one.
#[derive(Clone, Copy, Debug, PartialEq, Eq)]
pub enum Event {
    Send {
        to: InstanceNo,
        name: Name,
    },
    Receive {
        from: InstanceNo,
        name: Name,
        /// The coregion that the receive is in, numbered along the line from 1, or 0 outside of a coregion.
        region: u32,
    },
}

impl Event {
    ghost use Rattle.std.specs.Prelude.{◌≡◌};
    ghost use Rattle.chart.specs.Events.{partner_of, name_of, region_of, is_receive, is_receive_from, is_in};

    /// The instance at the other end of the message.
    #[inline(always)]
    pub fn partner(&self) -> InstanceNo
        ensures { result ≡ partner_of self.now }
    {
        match self {
            Event::Send { to, .. } => *to,
            Event::Receive { from, .. } => *from,
        }
    }

    /// The name of the message.
    #[inline(always)]
    pub fn name(&self) -> Name
        ensures { result ≡ name_of self.now }
    {
        match self {
            Event::Send { name, .. } => *name,
            Event::Receive { name, .. } => *name,
        }
    }

    /// The coregion that the event is in, from 1, or 0 outside of a coregion. A send is in none.
    #[inline(always)]
    pub fn region(&self) -> u32
        ensures { result ≡ region_of self.now }
    {
        match self {
            Event::Send { .. } => 0,
            Event::Receive { region, .. } => *region,
        }
    }

    /// Whether the event is a receive.
    #[inline(always)]
    pub fn is_receive(&self) -> bool
        ensures { result ≡ is_receive self.now }
    {
        match self {
            Event::Send { .. } => false,
            Event::Receive { .. } => true,
        }
    }

    /// Whether the event is a receive from this instance.
    #[inline(always)]
    pub fn is_receive_from(&self, sender: InstanceNo) -> bool
        ensures { result ≡ is_receive_from sender self.now }
    {
        match self {
            Event::Send { .. } => false,
            Event::Receive { from, .. } => *from == sender,
        }
    }

    /// Whether the event is a receive in this coregion. No event is in coregion 0.
    #[inline(always)]
    pub fn is_in(&self, region: u32) -> bool
        ensures { result ≡ is_in region self.now }
    {
        self.region() == region && region != 0
    }
}
