//! Events of hosts.
ghost use Rattle.std.specs.Prelude.{◌≡◌};
ghost use Rattle.log_chart.specs.Items.{message_of, item_of, invented};

use crate::matching::{LogLine, is_send};
use chart::InstanceNo;

/// A message, by the number of the line that sends it or, if its send is invented, of the line that receives it.
#[derive(Clone, Copy, Debug, PartialEq, Eq)]
pub enum MessageNo {
    Sent(usize),
    Begun(usize),
}

/// An event of a host.
#[derive(Clone, Copy, Debug)]
pub struct Item {
    pub sends: bool,
    /// The host at the other end.
    pub partner: InstanceNo,
    pub message: MessageNo,
    /// The number of its line in the log, or `None` for an invented send.
    pub line: Option<usize>,
}

/// The message of a line.
pub fn message_of(line: &LogLine) -> MessageNo
    ensures { result ≡ message_of line.now }
{
    if is_send(line.entry.kind) {
        return MessageNo::Sent(line.number);
    }
    match line.send {
        Some(send) => MessageNo::Sent(send),
        None => MessageNo::Begun(line.number),
    }
}

/// The event of a line.
pub(crate) fn item_of(line: &LogLine) -> Item
    ensures { result ≡ item_of line.now }
{
    Item {
        sends: is_send(line.entry.kind),
        partner: line.entry.peer,
        message: message_of(line),
        line: Some(line.number),
    }
}

/// The send that is invented for the receive of this line.
pub(crate) fn invented(receiver: InstanceNo, receive: usize) -> Item
    ensures { result ≡ invented receiver receive }
{
    Item {
        sends: true,
        partner: receiver,
        message: MessageNo::Begun(receive),
        line: None,
    }
}
