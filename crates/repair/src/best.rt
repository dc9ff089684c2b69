//! The race pair whose mending leaves the fewest.
ghost use Rattle.std.specs.Prelude.{◌≡◌, ℕ, length, IfOk, MatchOption};
ghost use Rattle.chart.specs.Charts.{chart_lines, IsReceiveFrom};
ghost use Rattle.closure.specs.Closures.{IsPossibleChart};
ghost use Rattle.closure.specs.Faults.{place_of};
ghost use Rattle.repair.specs.Counted.{ArePlaced};
ghost use Rattle.repair.specs.Messages.{IsRace};
ghost use Rattle.repair.specs.Repairs.{ArePairs, Leaves};
ghost use Rattle.repair.specs.Best.{IsTried, IsBestSo, better};

use crate::counted::{Counted, count_counted};
use crate::error::MendError;
use crate::mending::{Mending, mend_race};
use crate::message::Message;
use crate::moves::moved_counted;
use crate::pairs::RacePair;
use chart::{Chart, Name};
use closure::Closure;
use std::alloc::{AllocError, Global};

/// A message that is to be added, and the race pair that it mends.
#[derive(Clone, Copy, Debug, PartialEq, Eq)]
pub struct Addition {
    pub pair: RacePair,
    pub message: Message,
}

/// A pair that was mended: the chart with the message, which of its race pairs count, and how many these are.
#[derive(Debug, Drop)]
pub(crate) struct Tried {
    pub addition: Addition,
    pub chart: Chart,
    pub counted: Counted,
    pub left: usize,
}

/// Mends a race pair, where a message does and its lines have room.
fn try_pair(
    alloc: Global,
    closure: &Closure<'_>,
    counted: &Counted,
    pair: &RacePair,
    name: &Name,
) -> Result<Option<Tried>, AllocError>
    requires possible { IsPossibleChart closure.now }
    requires placed { ArePlaced counted.now closure.now }
    requires race { IsRace (chart_lines closure.now) (place_of pair.now.earlier) (place_of pair.now.receive) }
    requires receive { (q : ℕ) × IsReceiveFrom (chart_lines closure.now) q (place_of pair.now.receive) }
    ensures { IfOk result (λ found. MatchOption found
        ((k : ℕ) → Leaves counted.now closure.now name.now pair.now k → ⊥)
        (IsTried counted.now closure.now name.now pair.now)) }
{
    match mend_race(alloc, closure, &pair.earlier, &pair.receive, name) {
        Ok(Mending::Mended(message, chart, reports)) => {
            // (a call states what each chart keeps)
            let _ = chart.lines();
            let counted = moved_counted(alloc, &message, counted)?;
            let left = count_counted(alloc, &chart, &counted, reports)?;
            let addition = Addition {
                pair: *pair,
                message,
            };
            Ok(Some(Tried {
                addition,
                chart,
                counted,
                left,
            }))
        }
        Ok(_) => Ok(None),
        Err(MendError::LineFull(_)) => Ok(None),
        Err(MendError::Memory) => Err(AllocError),
    }
}

/// The one that leaves fewer, if it leaves fewer than so many: the first of two that leave as many.
fn better(best: Option<Tried>, next: Option<Tried>, most: usize) -> Option<Tried>
    ensures { result ≡ better best next most }
{
    let limit = match &best {
        Some(tried) => tried.left,
        None => most,
    };
    match next {
        Some(tried) if tried.left < limit => Some(tried),
        _ => best,
    }
}

/// The first of the race pairs that count whose mending leaves the fewest, if these are fewer than before.
pub(crate) fn best_among(
    alloc: Global,
    closure: &Closure<'_>,
    counted: &Counted,
    pairs: &[RacePair],
    name: &Name,
) -> Result<Option<Tried>, AllocError>
    requires possible { IsPossibleChart closure.now }
    requires placed { ArePlaced counted.now closure.now }
    requires pairs { ArePairs counted.now closure.now pairs.now }
    ensures { IfOk result (λ best. IsBestSo counted.now closure.now name.now pairs.now (length pairs.now) best) }
{
    let mut best = None;
    for pair in pairs {
        let next = try_pair(alloc, closure, counted, pair, name)?;
        best = better(best, next, pairs.len());
    }
    Ok(best)
}
