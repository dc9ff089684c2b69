//! The instances that send in each row.
ghost use Rattle.std.specs.Prelude.{◌≡◌, ℕ, Some, true, is_some, IfOk, OnOk, if◌then◌else◌};
ghost use Rattle.std.specs.Map.{lookup};
ghost use Rattle.diagram_join.specs.Turns.Sends.{same_spot, AreSends};
ghost use Rattle.diagram_join.specs.declared.turns.sends.Spot.{Spot};

use chart::InstanceNo;
use diagrams::Message;
use indexmap::IndexMap;
use std::alloc::{AllocError, Global};

/// A row in which an instance sends.
#[derive(Clone, Copy, Debug, PartialEq, Eq, Hash)]
pub(crate) struct Spot {
    pub row: u64,
    pub instance: InstanceNo,
}

/// The rows in which instances send.
#[derive(Drop)]
pub(crate) struct Sends {
    spots: IndexMap<Spot, bool>,
}

/// Adds one more row of an instance.
fn put_spot(map: &mut IndexMap<Spot, bool>, spot: Spot) -> Result<(), AllocError>
    ensures { OnOk result ((q : Spot) → lookup (same_spot q) map.new.entries
        ≡ (if same_spot spot q then Some true else lookup (same_spot q) map.old.entries)) }
{
    map.insert(spot, true)?;
    Ok(())
}

impl Sends {
    /// The rows in which the instances of these messages send. It looks at each message once.
    pub(crate) fn of(alloc: Global, messages: &[Message]) -> Result<Sends, AllocError>
        ensures { IfOk result (λ sends. AreSends sends.spots.entries messages.now) }
    {
        let mut spots = IndexMap::new(alloc);
        for message in messages {
            let spot = Spot {
                row: message.begins,
                instance: message.sender,
            };
            put_spot(&mut spots, spot)?;
        }
        Ok(Sends { spots })
    }

    /// Whether the instance sends in this row.
    pub(crate) fn has(&self, row: u64, instance: InstanceNo) -> bool
        ensures { result ≡ is_some (lookup (same_spot (record { row = row; instance = instance })) self.now.spots.entries) }
    {
        self.spots.get(&Spot { row, instance }).is_some()
    }
}
