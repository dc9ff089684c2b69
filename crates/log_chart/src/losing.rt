//! Which lines of a log stay, and which are lost or overtake.
ghost use Rattle.std.specs.Prelude.{◌≡◌, ◌<◌, ◌∷◌, [], ℕ, List, length, IfOk, Option, Some};
ghost use Rattle.log_chart.specs.Fates.{sender_of, receiver_of, earlier, later_one, last_sent, overtaking, message_fate};
ghost use Rattle.log_chart.specs.Fates.{unreceived, fate_of, fates, stays, staying};
ghost use Rattle.log_chart.specs.FateTables.{AreFirst, AreLast, AreFates, IsWithin, AreWithin, AreNumbered};
ghost use Rattle.log_chart.specs.declared.matching.LogLine.{LogLine};

use crate::entry::Entry;
use crate::fate::Fate;
use crate::lane_sends::LaneTable;
use crate::matching::{LogLine, is_send};
use chart::InstanceNo;
use std::alloc::{AllocError, Global};

/// The sender of the message.
pub(crate) fn sender_of(entry: &Entry) -> InstanceNo
    ensures { result ≡ sender_of entry.now }
{
    if is_send(entry.kind) {
        entry.host
    } else {
        entry.peer
    }
}

/// The receiver of the message.
pub(crate) fn receiver_of(entry: &Entry) -> InstanceNo
    ensures { result ≡ receiver_of entry.now }
{
    if is_send(entry.kind) {
        entry.peer
    } else {
        entry.host
    }
}

/// What is known of the messages that are received in a line or below it.
#[derive(Drop)]
struct Received {
    /// For each send the fate of its message, if it is received there.
    fates: Vec<Option<Fate>>,
    /// For each lane the first send of these messages.
    first: LaneTable,
    /// For each lane the last send of these messages.
    last: LaneTable,
}

/// The fate of the message of a send. `first` is the first send of its lane that is received later.
fn overtaking(first: Option<usize>, send: usize) -> Fate
    ensures { result ≡ overtaking first send }
{
    match first {
        None => Fate::Stays,
        Some(other) => {
            if other < send {
                Fate::Overtakes(other)
            } else {
                Fate::Stays
            }
        }
    }
}

/// The earlier of two sends. There may be no second one.
fn earlier(send: usize, other: Option<usize>) -> usize
    ensures { Some result ≡ earlier (Some send) other }
{
    match other {
        None => send,
        Some(other) => send.min(other),
    }
}

/// The later of two sends. There may be no second one.
fn later_one(send: usize, other: Option<usize>) -> usize
    ensures { Some result ≡ later_one (Some send) other }
{
    match other {
        None => send,
        Some(other) => send.max(other),
    }
}

impl Received {
    /// Nothing is received, in a log of `count` lines. It fails only if there is no memory.
    fn nothing(alloc: Global, count: usize) -> Result<Received, AllocError>
        ensures whole { IfOk result (λ r. length r.fates.items ≡ count) }
        ensures fates { IfOk result (λ r. AreFates r.fates.items []) }
        ensures first { IfOk result (λ r. AreFirst r.first []) }
        ensures last { IfOk result (λ r. AreLast r.last []) }
    {
        Ok(Received {
            fates: vec![in alloc; None; count]?,
            first: LaneTable::none(alloc)?,
            last: LaneTable::none(alloc)?,
        })
    }

    /// Adds one more line, above those that were added.
    fn pass(&mut self, line: &LogLine)
        requires { IsWithin (length self.old.fates.items) line.now.send }
        ensures whole { length self.new.fates.items ≡ length self.old.fates.items }
        ensures fates { (later : List LogLine) → AreFirst self.old.first later → AreFates self.old.fates.items later
            → AreFates self.new.fates.items (line.now ∷ later) }
        ensures first { (later : List LogLine) → AreFirst self.old.first later
            → AreFirst self.new.first (line.now ∷ later) }
        ensures last { (later : List LogLine) → AreLast self.old.last later
            → AreLast self.new.last (line.now ∷ later) }
    {
        let Some(send) = line.send else { return };
        let sender = sender_of(&line.entry);
        let receiver = receiver_of(&line.entry);
        let first = self.first.at(sender, receiver);
        let last = self.last.at(sender, receiver);
        self.fates[send] = Some(overtaking(first, send));
        self.first.set(sender, receiver, Some(earlier(send, first)));
        self.last.set(sender, receiver, Some(later_one(send, last)));
    }

    /// The fate of the message of a send, if it is received.
    fn message_fate(&self, send: usize) -> Option<Fate>
        ensures { (lines : List LogLine) → AreFates self.now.fates.items lines → send < length self.now.fates.items
            → result ≡ message_fate send lines }
    {
        match self.fates.get(send) {
            Some(fate) => *fate,
            None => None,
        }
    }

    /// The fate of a send without a receive.
    fn unreceived(&self, line: &LogLine) -> Fate
        ensures { (lines : List LogLine) → AreLast self.now.last lines
            → result ≡ unreceived line.now.number
            (last_sent lines (sender_of line.now.entry) (receiver_of line.now.entry)) }
    {
        match self
            .last
            .at(sender_of(&line.entry), receiver_of(&line.entry))
        {
            None => Fate::Stays,
            Some(last) => {
                if line.number < last {
                    Fate::Lost
                } else {
                    Fate::Stays
                }
            }
        }
    }

    /// The fate of a line.
    fn fate_of(&self, line: &LogLine) -> Fate
        requires number { line.now.number < length self.now.fates.items }
        requires send { IsWithin (length self.now.fates.items) line.now.send }
        ensures { (lines : List LogLine) → AreFates self.now.fates.items lines → AreLast self.now.last lines
            → result ≡ fate_of lines line.now }
    {
        if is_send(line.entry.kind) {
            match self.message_fate(line.number) {
                Some(fate) => fate,
                None => self.unreceived(line),
            }
        } else {
            match line.send {
                Some(send) => self.message_fate(send).unwrap_or(Fate::Stays),
                None => Fate::Stays,
            }
        }
    }
}

/// What is known of the messages that these lines receive. It fails only if there is no memory.
fn received_of(alloc: Global, lines: &[LogLine]) -> Result<Received, AllocError>
    requires { AreWithin lines.now }
    ensures whole { IfOk result (λ r. length r.fates.items ≡ length lines.now) }
    ensures fates { IfOk result (λ r. AreFates r.fates.items lines.now) }
    ensures last { IfOk result (λ r. AreLast r.last lines.now) }
{
    let mut received = Received::nothing(alloc, lines.len())?;
    let mut count = lines.len();
    'lines: while count > 0 {
        count -= 1;
        received.pass(&lines[count]);
    }
    Ok(received)
}

fn stays(fate: Fate) -> bool
    ensures { result ≡ stays fate }
{
    match fate {
        Fate::Stays => true,
        Fate::Lost | Fate::Overtakes(_) => false,
    }
}

/// The fates of the lines of a log, and the lines that stay.
#[derive(Drop)]
pub(crate) struct Sifted {
    /// The fate of each line.
    pub fates: Vec<Fate>,
    /// The lines that stay.
    pub staying: Vec<LogLine>,
}

/// The fate of each line, and the lines that stay. A send without a receive is skipped if a later send of its lane was
/// received. So is a message that overtakes. It fails only if there is no memory.
pub(crate) fn sift(alloc: Global, lines: &[LogLine]) -> Result<Sifted, AllocError>
    requires sends { AreWithin lines.now }
    requires numbers { AreNumbered lines.now }
    ensures fates { IfOk result (λ sifted. sifted.fates.items ≡ fates lines.now) }
    ensures staying { IfOk result (λ sifted. sifted.staying.items ≡ staying lines.now) }
{
    let received = received_of(alloc, lines)?;
    let mut fates = Vec::new(alloc);
    let mut staying = Vec::new(alloc);
    for line in lines {
        let fate = received.fate_of(line);
        fates.push(fate)?;
        if stays(fate) {
            staying.push(*line)?;
        }
    }
    Ok(Sifted { fates, staying })
}
