//! Instances with too many events.
ghost use Rattle.std.specs.Prelude.{◌≡◌, ◌≤◌, ◌∷◌, [], ℕ, List, IfOk, OnOk};
ghost use Rattle.diagrams.specs.Full.{receives, is_full, full_from};
ghost use Rattle.diagrams.specs.Loads.{AreCounts, AreLoads, raised};
ghost use Rattle.diagrams.specs.declared.message.Message.{Message};

use crate::message::Message;
use chart::{InstanceNo, MAX_EVENTS, MAX_INSTANCES};
use std::alloc::{AllocError, Global};
use std::marker::Model;

/// How many events each instance has. A contract sees the list of these numbers.
#[derive(Drop)]
struct Loads {
    numbers: Vec<u64>,
}

impl Model for Loads {
    ghost use Rattle.std.specs.Prelude.{ℕ, List, ◌≡◌, length};
    ghost use Rattle.chart.specs.declared.instance.TheConstants.{MAX_INSTANCES};

    ghost Value = { List ℕ };

    ghost view = { λ l. l.numbers.items };

    ghost invariant = { λ l. length l.numbers.items ≡ MAX_INSTANCES };
}

impl Loads {
    /// No events.
    fn zeros(alloc: Global) -> Result<Loads, AllocError>
        ensures { IfOk result (λ zeros. AreCounts zeros (λ p. 0)) }
    {
        Ok(Loads {
            numbers: vec![in alloc; 0; MAX_INSTANCES]?,
        })
    }

    /// How many events the instance has.
    fn at(&self, instance: InstanceNo) -> u64
        ensures { (counts : ℕ → ℕ) → AreCounts self.now counts → result ≡ counts instance }
    {
        self.numbers[instance.place()]
    }

    /// Adds this number of events to an instance. F6 if the sum doesn't fit.
    fn raise(&mut self, instance: InstanceNo, by: u64) -> Result<(), AllocError>
        ensures { (counts : ℕ → ℕ) → AreCounts self.old counts → OnOk result (AreCounts self.new (raised counts instance by)) }
    {
        let Some(number) = self.numbers[instance.place()].checked_add(by) else {
            return Err(AllocError);
        };
        self.numbers[instance.place()] = number;
        Ok(())
    }
}

fn receives(message: &Message) -> u64
    ensures { result ≡ receives message.now }
{
    if message.is_lost { 0 } else { 1 }
}

/// Whether an instance has too many events with this message.
fn add(loads: &mut Loads, message: &Message) -> Result<bool, AllocError>
    ensures full { (earlier : List Message) → AreLoads loads.old earlier
        → IfOk result (λ full. full ≡ is_full (message.now ∷ earlier) message.now) }
    ensures loads { (earlier : List Message) → AreLoads loads.old earlier
        → OnOk result (AreLoads loads.new (message.now ∷ earlier)) }
{
    loads.raise(message.sender, 1)?;
    loads.raise(message.receiver, receives(message))?;
    let most = MAX_EVENTS as u64;
    Ok(most < loads.at(message.sender) || most < loads.at(message.receiver))
}

/// The line of the first message with which an instance has too many events.
pub fn first_full(alloc: Global, messages: &[Message]) -> Result<Option<u64>, AllocError>
    ensures { IfOk result (λ line. line ≡ full_from [] messages.now) }
{
    let mut loads = Loads::zeros(alloc)?;
    for message in messages {
        if add(&mut loads, message)? {
            return Ok(Some(message.place.line));
        }
    }
    Ok(None)
}
