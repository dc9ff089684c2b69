//! The fewest messages that lead around.
ghost use Rattle.std.specs.Prelude.{◌≡◌, suc, ◌+◌, ◌<◌, ◌≤◌, length, IfOk, MatchOption};
ghost use Rattle.chart.specs.Charts.{chart_lines, Chart};
ghost use Rattle.chart.specs.Order.{IsCyclic};
ghost use Rattle.closure.specs.Cycle.Rounds.{IsFoundRound, bound_of, better_of, HasNoneOn, IsShortestRound};
ghost use Rattle.chart.specs.declared.instance.TheConstants.{MAX_INSTANCES};

use crate::cycle::hearing::Hearing;
use crate::cycle::round::{Round, round_through};
use std::alloc::{AllocError, Global};

/// The most messages of a round that is shorter than the best one, in a chart with this number of lines.
fn most_of(lines: usize, best: &Option<Round>) -> usize
    requires lines { lines ≤ MAX_INSTANCES }
    requires best { (c : Chart) × IsFoundRound c best.now }
    ensures { result + 1 ≡ bound_of lines best.now }
{
    match best {
        None => lines + 1,
        Some(round) => round.messages - 1,
    }
}

/// The round that was just found, or else the one before.
fn better_of(before: Option<Round>, found: Option<Round>) -> Option<Round>
    ensures { result ≡ better_of before found }
{
    match found {
        None => before,
        Some(round) => Some(round),
    }
}

/// The best of the round that was found before and the rounds through events of this line.
fn shortest_on(
    alloc: Global,
    hearing: &Hearing<'_>,
    line: usize,
    before: Option<Round>,
) -> Result<Option<Round>, AllocError>
    requires line { line < length hearing.now }
    requires before { IsFoundRound (chart_lines hearing.now) before }
    ensures found { IfOk result (IsFoundRound (chart_lines hearing.now)) }
    ensures fewer { IfOk result (λ best. bound_of (length hearing.now) best ≤ bound_of (length hearing.now) before) }
    ensures none { IfOk result (λ best. HasNoneOn (chart_lines hearing.now) (suc line)
        (length (chart_lines hearing.now (suc line))) (bound_of (length hearing.now) best)) }
{
    let mut best = before;
    for place in 0..hearing.len_of(line) {
        let most = most_of(hearing.len(), &best);
        let found = round_through(alloc, hearing, line, place, most)?;
        best = better_of(best, found);
    }
    Ok(best)
}

/// A round with the fewest messages. There is none exactly if no event comes before itself.
pub(crate) fn shortest_round(
    alloc: Global,
    hearing: &Hearing<'_>,
) -> Result<Option<Round>, AllocError>
    ensures { IfOk result (λ found. MatchOption found (IsCyclic (chart_lines hearing.now) → ⊥)
        (IsShortestRound (chart_lines hearing.now))) }
{
    let mut best = None;
    for line in 0..hearing.len() {
        best = shortest_on(alloc, hearing, line, best)?;
    }
    Ok(best)
}
