//! Finds the instances of two recordings that have the same name.
ghost use Rattle.std.specs.Prelude.{◌≡◌, ◌<◌, ℕ, List, length, slice_get, Some, ok_or};
ghost use Rattle.chart.specs.declared.instance.TheConstants.{MAX_INSTANCES};
ghost use Rattle.chart.specs.Names.{instance_of};
ghost use Rattle.cmd_compare.specs.Comparisons.{FindsCounterparts};

use crate::error::CompareError;
use chart::{InstanceNo, Name, Names};
use cmd_base::ProgramError;
use std::alloc::{AllocFailed, Global};
use texts::named;

/// The number of the instance with the same name in the other recording. If there is none, the error is the name.
fn counterpart(names: &Names, other_names: &Names, place: usize) -> Result<InstanceNo, Name>
    requires within { place < length names.now }
    requires limit { place < MAX_INSTANCES }
    ensures { (w : List ℕ) → slice_get names.now place ≡ Some w → result ≡ ok_or (instance_of other_names.now w) w }
{
    let name = named(names, InstanceNo::at_place(place));
    match other_names.instance(name) {
        Some(other) => Ok(other),
        None => Err(name),
    }
}

/// For each instance of the first recording, its number in the second. F40: the second has no instance with this name.
/// F6: it fails with this cause only if there is no memory.
pub fn counterparts(
    alloc: Global,
    names: &Names,
    other_names: &Names,
) -> Result<Vec<InstanceNo>, CompareError>
    ensures { FindsCounterparts names.now other_names.now result }
{
    let mut others = Vec::new(alloc);
    for place in 0..names.len() {
        match counterpart(names, other_names, place) {
            Ok(other) => match others.push(other) {
                Ok(()) => {}
                Err(AllocFailed { .. }) => return Err(CompareError::Program(ProgramError::Memory)),
            },
            Err(name) => return Err(CompareError::OtherInstances(name)),
        }
    }
    Ok(others)
}
