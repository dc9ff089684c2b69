//! Receives whose sends aren't in the log.
ghost use Rattle.std.specs.Prelude.{◌≡◌, IfOk};
ghost use Rattle.log_chart.specs.Begun.{lasts_after, is_begun, begun_of, begun};
ghost use Rattle.log_chart.specs.LaneTables.{LaneSends, AreLanes};

use crate::lane_sends::LaneTable;
use crate::losing::{receiver_of, sender_of};
use crate::matching::{LogLine, is_send};
use chart::InstanceNo;
use std::alloc::{AllocError, Global};

/// A send that is invented for a receive, since the log begins between the two.
#[derive(Clone, Copy, Debug)]
pub struct Begun {
    /// The number of the receive's line.
    pub receive: usize,
    pub sender: InstanceNo,
    pub receiver: InstanceNo,
    /// The number of the line with the send that the invented send follows directly. Without it the invented send is at
    /// the head of the sender's line.
    pub behind: Option<usize>,
}

fn is_begun(line: &LogLine) -> bool
    ensures { result ≡ is_begun line.now }
{
    !is_send(line.entry.kind) && line.send.is_none()
}

/// The send that is invented for a line. `lasts` has for each lane the send of its last message so far.
fn begun_of(lasts: &LaneTable, line: &LogLine) -> Begun
    ensures { (sends : LaneSends) → AreLanes lasts.now sends → result ≡ begun_of sends line.now }
{
    Begun {
        receive: line.number,
        sender: line.entry.peer,
        receiver: line.entry.host,
        behind: lasts.at(line.entry.peer, line.entry.host),
    }
}

/// Notes the send of one more line in `lasts`, as that of its lane's last message.
fn pass(lasts: &mut LaneTable, line: &LogLine)
    ensures { (sends : LaneSends) → AreLanes lasts.old sends → AreLanes lasts.new (lasts_after sends line.now) }
{
    if line.send.is_some() {
        let sender = sender_of(&line.entry);
        let receiver = receiver_of(&line.entry);
        lasts.set(sender, receiver, line.send);
    }
}

/// The sends that are invented for these lines: one for each receive without a send. It fails only if there is no
/// memory.
pub(crate) fn begun_sends(alloc: Global, lines: &[LogLine]) -> Result<Vec<Begun>, AllocError>
    ensures { IfOk result (λ given. given.items ≡ begun lines.now) }
{
    let mut lasts = LaneTable::none(alloc)?;
    let mut given = Vec::new(alloc);
    for line in lines {
        if is_begun(line) {
            given.push(begun_of(&lasts, line))?;
        }
        pass(&mut lasts, line);
    }
    Ok(given)
}
