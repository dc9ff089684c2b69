//! What a behaviour does.
ghost use Rattle.std.specs.Prelude.{◌≡◌};
ghost use Rattle.behaviour.specs.Bare.{bare_act};

use crate::bare_act::BareAct;
use chart::{InstanceNo, Message};

/// One act of an instance: a call of its mailbox, or its stop, the last act.
#[derive(Debug, Drop)]
pub enum Act {
    /// Send the message to an instance.
    Send(InstanceNo, Message),
    /// Receive the first message that waits on the lane from an instance.
    Receive(InstanceNo),
    /// Receive the first message that is found on the lanes from the other instances.
    Any,
    /// Close the lane to an instance.
    Close(InstanceNo),
    /// Open a coregion.
    Open,
    /// Close the open coregion.
    Shut,
    /// Do nothing more.
    Stop,
}

impl Act {
    /// The act without its message's body.
    pub fn bare(&self) -> BareAct
        ensures { result ≡ bare_act self.now }
    {
        match self {
            Act::Send(to, message) => BareAct::Send(*to, message.name()),
            Act::Receive(from) => BareAct::Receive(*from),
            Act::Any => BareAct::Any,
            Act::Close(to) => BareAct::Close(*to),
            Act::Open => BareAct::Open,
            Act::Shut => BareAct::Shut,
            Act::Stop => BareAct::Stop,
        }
    }
}
