//! What each send knows of its receiver's line: how many of its events are before the send.
ghost use Rattle.std.specs.Prelude.{ℕ, ◌<◌, suc, length, IfOk};
ghost use Rattle.chart.specs.Charts.{at, chart_lines};
ghost use Rattle.closure.specs.Rows.{IsRow};
ghost use Rattle.closure.specs.Searches.{IsSearchAfter, IsKnowledge, HasKnowledge};

use crate::linked::Linked;
use crate::partner::Partner;
use crate::row::Row;
use crate::search::{Search, reach};
use std::alloc::{AllocError, Global};

/// What the event at a place knows of its receiver's line, if it is a send. The search has covered earlier sends of the
/// line.
fn known_at(linked: &Linked<'_>, search: &mut Search, line: usize, place: usize) -> u32
    requires line { line < length linked.now }
    requires place { place < length (chart_lines linked.now (suc line)) }
    requires search { IsSearchAfter (chart_lines linked.now) (length linked.now) line place
        search.old.fronts search.old.seen }
    ensures known { IsKnowledge (chart_lines linked.now) (at (suc line) (suc place)) result }
    ensures search { IsSearchAfter (chart_lines linked.now) (length linked.now) line (suc place)
        search.new.fronts search.new.seen }
{
    match linked.partner_of(line, place) {
        Partner::Receiver { line: receiver } => {
            reach(linked, search, line, place + 1);
            search.fronts.at(receiver as usize) as u32
        }
        Partner::Sender { .. } => 0,
    }
}

/// What each send of a line knows of its receiver's line, found by one search.
fn known_on(alloc: Global, linked: &Linked<'_>, line: usize) -> Result<Row<u32>, AllocError>
    requires line { line < length linked.now }
    ensures { IfOk result
        (IsRow (IsKnowledge (chart_lines linked.now)) (suc line) (length (chart_lines linked.now (suc line)))) }
{
    let mut search = Search::new(alloc, linked.len())?;
    let mut row = Row::new(alloc);
    for place in 0..linked.len_of(line) {
        let known = known_at(linked, &mut search, line, place);
        row.push(known)?;
    }
    Ok(row)
}

/// What each send knows of its receiver's line: for each line a row with a number for each event. The number of a
/// receive means nothing.
pub fn knowledge(alloc: Global, linked: &Linked<'_>) -> Result<Vec<Row<u32>>, AllocError>
    ensures { IfOk result (λ known. HasKnowledge linked.now known.items) }
{
    let mut known = Vec::new(alloc);
    for line in 0..linked.len() {
        let row = known_on(alloc, linked, line)?;
        known.push(row)?;
    }
    Ok(known)
}
