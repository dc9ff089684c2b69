//! A number for each lane.
ghost use Rattle.std.specs.Prelude.{◌≡◌, ◌<◌, ◌*◌, IfOk};
ghost use Rattle.chart.specs.declared.instance.TheConstants.{MAX_INSTANCES};
ghost use Rattle.diagrams.specs.Lanes.{slot_of, IsInstance, Numbers, AreNumbers, changed};

use chart::{InstanceNo, MAX_INSTANCES};
use std::alloc::{AllocError, Global};
use std::marker::Model;

/// The number of possible lanes, including those from an instance to itself, which no message uses.
const LANES: usize = MAX_INSTANCES * MAX_INSTANCES;

/// A number for each lane, by sender and receiver. A contract sees the list.
#[derive(Drop)]
pub struct Lanes {
    numbers: Vec<u64>,
}

impl Model for Lanes {
    ghost use Rattle.std.specs.Prelude.{ℕ, List, ◌≡◌, ◌*◌, length};
    ghost use Rattle.chart.specs.declared.instance.TheConstants.{MAX_INSTANCES};

    ghost Value = { List ℕ };

    ghost view = { λ c. c.numbers.items };

    ghost invariant = { λ c. length c.numbers.items ≡ MAX_INSTANCES * MAX_INSTANCES };
}

/// The place of a lane's number in the list.
fn slot(from: InstanceNo, to: InstanceNo) -> usize
    ensures value { result ≡ slot_of from to }
    ensures lane { IsInstance from × IsInstance to }
    ensures within { result < MAX_INSTANCES * MAX_INSTANCES }
{
    from.place() * MAX_INSTANCES + to.place()
}

impl Lanes {
    /// 0 for each lane. It fails only if memory runs out.
    pub fn zeros(alloc: Global) -> Result<Lanes, AllocError>
        ensures { IfOk result (λ zeros. AreNumbers zeros (λ q p. 0)) }
    {
        Ok(Lanes {
            numbers: vec![in alloc; 0; LANES]?,
        })
    }

    /// The number of a lane.
    pub fn at(&self, from: InstanceNo, to: InstanceNo) -> u64
        ensures { (numbers : Numbers) → AreNumbers self.now numbers → result ≡ numbers from to }
    {
        self.numbers[slot(from, to)]
    }

    /// Changes the number of a lane.
    pub fn set(&mut self, from: InstanceNo, to: InstanceNo, number: u64)
        ensures { (numbers : Numbers) → AreNumbers self.old numbers
            → AreNumbers self.new (changed numbers from to number) }
    {
        self.numbers[slot(from, to)] = number;
    }
}
