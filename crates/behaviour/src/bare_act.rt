//! Acts without the bodies of their messages.
ghost use Rattle.std.specs.Prelude.{◌≡◌, ◌↔◌, IsTrue};
ghost use Rattle.behaviour.specs.Bare.{with_empty_body};

use crate::act::Act;
use chart::{InstanceNo, Message, Name};
use std::alloc::Global;

/// An [`Act`] by its kind, its partner and its message's name.
#[derive(Clone, Copy, Debug, PartialEq, Eq)]
pub enum BareAct {
    /// Send a message with this name to an instance.
    Send(InstanceNo, Name),
    /// Receive the first message that waits on the lane from an instance.
    Receive(InstanceNo),
    /// Receive the first message that is found on the lanes from the other instances.
    Any,
    /// Close the lane to an instance.
    Close(InstanceNo),
    /// Open a coregion.
    Open,
    /// Close the open coregion.
    Shut,
    /// Do nothing more.
    Stop,
}

impl BareAct {
    /// Whether the two acts are equal.
    pub fn is(&self, other: &BareAct) -> bool
        ensures { IsTrue result ↔ (self.now ≡ other.now) }
    {
        self == other
    }

    /// The act with an empty body in its message. The call takes no memory.
    pub fn with_empty_body(self, alloc: Global) -> Act
        ensures { result ≡ with_empty_body self }
    {
        match self {
            BareAct::Send(to, name) => match Message::new(name, Vec::new(alloc)) {
                Ok(message) => Act::Send(to, message),
                Err(_) => unreachable!(),
            },
            BareAct::Receive(from) => Act::Receive(from),
            BareAct::Any => Act::Any,
            BareAct::Close(to) => Act::Close(to),
            BareAct::Open => Act::Open,
            BareAct::Shut => Act::Shut,
            BareAct::Stop => Act::Stop,
        }
    }
}
