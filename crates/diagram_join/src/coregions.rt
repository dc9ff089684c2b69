//! Coregions of joined lines.
ghost use Rattle.std.specs.Prelude.{◌≡◌, ◌∷◌, [], ◌+◌, ℕ, List, length, Some, IfOk, OnOk, if◌then◌else◌};
ghost use Rattle.std.specs.Map.{lookup};
ghost use Rattle.diagrams.specs.declared.message.Message.{Message};
ghost use Rattle.diagram_join.specs.Coregions.{place_in};
ghost use Rattle.diagram_join.specs.Tables.{parted_with, same_spot, same_row, spot_of, row_of, AreCoregions, AreLines};
ghost use Rattle.diagram_join.specs.declared.coregions.Row.{Row};
ghost use Rattle.diagram_join.specs.declared.coregions.Spot.{Spot};

use chart::InstanceNo;
use diagrams::Message;
use indexmap::IndexMap;
use std::alloc::{AllocError, Global};

/// A row in which an instance receives.
#[derive(Clone, Copy, Debug, PartialEq, Eq, Hash)]
pub(crate) struct Row {
    pub row: u64,
    pub instance: InstanceNo,
}

/// A row in which a line of an instance receives.
#[derive(Clone, Copy, Debug, PartialEq, Eq, Hash)]
pub(crate) struct Spot {
    pub row: u64,
    pub instance: InstanceNo,
    pub line: InstanceNo,
}

/// The receives of a line in one row.
#[derive(Clone, Copy, Debug)]
pub(crate) struct Coregion {
    /// The place of its first message among all messages.
    pub first: usize,
    /// Whether a receive of another line comes between two of its receives.
    pub is_parted: bool,
}

/// The receives of lines in their rows. Messages are added from the last one to the first.
#[derive(Drop)]
pub(crate) struct Coregions {
    coregions: IndexMap<Spot, Coregion>,
    /// The line of the first receive in each row.
    lines: IndexMap<Row, InstanceNo>,
}

fn spot_of(message: &Message) -> Spot
    ensures { result ≡ spot_of message.now }
{
    Spot {
        row: message.ends,
        instance: message.receiver,
        line: message.line,
    }
}

fn row_of(message: &Message) -> Row
    ensures { result ≡ row_of message.now }
{
    Row {
        row: message.ends,
        instance: message.receiver,
    }
}

/// Whether a coregion is parted once one more receive is added at its beginning. `next` is the line of the next receive
/// in the row.
fn parted_with(coregion: Option<Coregion>, next: Option<InstanceNo>, line: InstanceNo) -> bool
    ensures { result ≡ parted_with coregion next line }
{
    match coregion {
        None => false,
        Some(coregion) => match next {
            None => true,
            Some(next) => coregion.is_parted || next != line,
        },
    }
}

fn put_coregion(
    map: &mut IndexMap<Spot, Coregion>,
    spot: Spot,
    coregion: Coregion,
) -> Result<(), AllocError>
    ensures { OnOk result ((q : Spot) → lookup (same_spot q) map.new.entries
        ≡ (if same_spot spot q then Some coregion else lookup (same_spot q) map.old.entries)) }
{
    map.insert(spot, coregion)?;
    Ok(())
}

fn put_line(
    map: &mut IndexMap<Row, InstanceNo>,
    row: Row,
    line: InstanceNo,
) -> Result<(), AllocError>
    ensures { OnOk result ((q : Row) → lookup (same_row q) map.new.entries
        ≡ (if same_row row q then Some line else lookup (same_row q) map.old.entries)) }
{
    map.insert(row, line)?;
    Ok(())
}

impl Coregions {
    fn new(alloc: Global) -> Coregions
        ensures coregions { (place : ℕ) → AreCoregions result.coregions.entries place [] }
        ensures lines { AreLines result.lines.entries [] }
    {
        Coregions {
            coregions: IndexMap::new(alloc),
            lines: IndexMap::new(alloc),
        }
    }

    /// The receives of the message's line in its row.
    fn of(&self, message: &Message) -> Option<Coregion>
        ensures { result ≡ lookup (same_spot (spot_of message.now)) self.now.coregions.entries }
    {
        self.coregions.get(&spot_of(message)).copied()
    }

    /// The line of the first receive in the message's row.
    fn next_line(&self, message: &Message) -> Option<InstanceNo>
        ensures { result ≡ lookup (same_row (row_of message.now)) self.now.lines.entries }
    {
        self.lines.get(&row_of(message)).copied()
    }

    /// Adds one more message, at this place before the others.
    fn add(&mut self, place: usize, message: &Message) -> Result<(), AllocError>
        ensures coregions { (later : List Message) → AreCoregions self.old.coregions.entries (place + 1) later
            → AreLines self.old.lines.entries later → OnOk result (AreCoregions self.new.coregions.entries place (message.now ∷ later)) }
        ensures lines { (later : List Message) → AreLines self.old.lines.entries later
            → OnOk result (AreLines self.new.lines.entries (message.now ∷ later)) }
    {
        if message.is_lost {
            return Ok(());
        }
        let coregion = Coregion {
            first: place,
            is_parted: parted_with(self.of(message), self.next_line(message), message.line),
        };
        put_coregion(&mut self.coregions, spot_of(message), coregion)?;
        put_line(&mut self.lines, row_of(message), message.line)?;
        Ok(())
    }

    /// The receives of lines for these messages.
    pub fn new_of(alloc: Global, messages: &[Message]) -> Result<Coregions, AllocError>
        ensures { IfOk result (λ c. AreCoregions c.coregions.entries 0 messages.now) }
    {
        let mut coregions = Coregions::new(alloc);
        let mut count = messages.len();
        'messages: while count > 0 {
            count -= 1;
            coregions.add(count, &messages[count])?;
        }
        Ok(coregions)
    }

    /// Each row is cut into as many rows as there are messages. This is the place of the one in which the message at a
    /// place is received.
    pub fn place_in(&self, count: usize, place: usize, message: &Message) -> usize
        ensures { (messages : List Message) → AreCoregions self.now.coregions.entries 0 messages → count ≡ length messages
            → result ≡ place_in messages place message.now }
    {
        match self.of(message) {
            None => count,
            Some(coregion) => {
                if coregion.is_parted {
                    place
                } else {
                    coregion.first
                }
            }
        }
    }
}
