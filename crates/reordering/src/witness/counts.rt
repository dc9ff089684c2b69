//! A number for each lane.
ghost use Rattle.std.specs.Prelude.{◌≡◌, ◌<◌, ◌*◌, IfOk};
ghost use Rattle.chart.specs.declared.instance.TheConstants.{MAX_INSTANCES};
ghost use Rattle.reordering.specs.OtherRuns.Walks.{Turns, raise};
ghost use Rattle.reordering.specs.Witness.Tables.{slot_of, IsInstance, AreCounts};

use chart::{InstanceNo, MAX_INSTANCES};
use std::alloc::{AllocError, Global};
use std::marker::Model;

/// The number of possible lanes, including those from an instance to itself, which are never used.
const LANES: usize = MAX_INSTANCES * MAX_INSTANCES;

/// A number for each lane, by sender and receiver. A contract sees the list.
#[derive(Drop)]
pub struct Counts {
    numbers: Vec<usize>,
}

impl Model for Counts {
    ghost use Rattle.std.specs.Prelude.{ℕ, List, ◌≡◌, ◌*◌, length};
    ghost use Rattle.chart.specs.declared.instance.TheConstants.{MAX_INSTANCES};

    ghost Value = { List ℕ };

    ghost view = { λ c. c.numbers.items };

    ghost invariant = { λ c. length c.numbers.items ≡ MAX_INSTANCES * MAX_INSTANCES };
}

/// The place of a lane's number in the list.
fn slot(from: InstanceNo, to: InstanceNo) -> usize
    ensures value { result ≡ slot_of from to }
    ensures lane { IsInstance from × IsInstance to }
    ensures within { result < MAX_INSTANCES * MAX_INSTANCES }
{
    from.place() * MAX_INSTANCES + to.place()
}

impl Counts {
    /// 0 for each lane.
    ///
    /// F6: it fails only if there is no memory.
    pub fn zeros(alloc: Global) -> Result<Counts, AllocError>
        ensures { IfOk result (λ zeros. AreCounts zeros (λ q p. 0)) }
    {
        Ok(Counts {
            numbers: vec![in alloc; 0; LANES]?,
        })
    }

    /// The number of a lane.
    pub fn at(&self, from: InstanceNo, to: InstanceNo) -> usize
        ensures { (numbers : Turns) → AreCounts self.now numbers → result ≡ numbers from to }
    {
        self.numbers[slot(from, to)]
    }

    /// Raises the number of a lane to at least this number.
    pub fn raise(&mut self, from: InstanceNo, to: InstanceNo, number: usize)
        ensures { (numbers : Turns) → AreCounts self.old numbers
            → AreCounts self.new (raise numbers from to number) }
    {
        let greater = self.at(from, to).max(number);
        self.numbers[slot(from, to)] = greater;
    }
}
