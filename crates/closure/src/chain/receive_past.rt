//! What comes before a receive, line by line.
ghost use Rattle.std.specs.Prelude.{◌≡◌, ℕ, length, IfOk};
ghost use Rattle.chart.specs.Charts.{chart_lines, IsReceiveFrom};
ghost use Rattle.closure.specs.Faults.{place_of};
ghost use Rattle.closure.specs.Chain.Pasts.{IsPast, OnePastLaw};

use crate::{Closure, Numbers};
use chart::EventNo;
use std::alloc::AllocError;

/// For each line, by instance, how many of its first events are the receive's send or come before this send. The only
/// other events before the receive are receives of its own line from the same sender.
///
/// F6: it fails only if there is no memory.
pub fn past(closure: &Closure<'_>, receive: &EventNo) -> Result<Numbers, AllocError>
    requires { (q : ℕ) × IsReceiveFrom (chart_lines closure.now) q (place_of receive.now) }
    ensures { IfOk result (IsPast (length closure.now) (chart_lines closure.now) (place_of receive.now)) }
{
    let Some(send) = closure.send_of(receive) else {
        unreachable!()
    };
    let counts = closure.up_to(&send)?;
    Ok(counts)
}

/// A receive has one past: no other numbers are those of the events before it.
pub fn one_past_law()
    ensures { OnePastLaw }
{}
