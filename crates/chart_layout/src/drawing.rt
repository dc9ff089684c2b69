//! The layout of a chart.
ghost use Rattle.std.specs.Prelude.{◌≡◌, suc, IfOk};
ghost use Rattle.chart_layout.specs.Picking.{line_of, IsLayout, OneLayoutLaw};

use crate::row::Row;
use crate::rows::Layout;
use crate::turns::{row_below, turns_below};
use chart::InstanceNo;
use closure::Closure;
use std::alloc::{AllocError, Global};

/// The line from which the search for the next row begins: the event's, or the message's sender's.
fn line_of(row: &Row) -> usize
    ensures { line_of row.now ≡ suc result }
{
    match row {
        Row::Message { send, .. } => send.instance.place(),
        Row::Event(event) => event.instance.place(),
    }
}

/// The layout of a possible chart, whose events come in the order of these turns.
///
/// As long as the turns fit the chart, each turn is that of the next event of its line. This event has a row of its
/// own. Only a receive whose turn directly follows that of its send is in the send's row. A chart that comes from no
/// run has no turns. Without turns the next row is found in this order:
/// - a receive whose send has a row: the one whose send is highest;
/// - a message both of whose ends are next;
/// - a send.
///
/// The search for the last two begins on the line of the row above, and goes on with each line by its number.
///
/// For each row it looks at each line at most three times. F6: it fails only if there is no memory.
pub fn layout(
    alloc: Global,
    closure: &Closure<'_>,
    turns: &[InstanceNo],
) -> Result<Layout, AllocError>
    ensures { IfOk result (λ layout. IsLayout closure.now turns.now layout) }
{
    prove!(closure.len() >= 2);
    let mut layout = Layout::none(alloc)?;
    let mut left = turns;
    let mut line = 0;
    while let Some(row) = row_below(closure, &layout, left, line) {
        layout = layout.with(row)?;
        left = turns_below(left, &row);
        line = line_of(&row);
    }
    Ok(layout)
}

/// A chart has exactly one layout for its turns.
pub fn one_layout_law()
    ensures { OneLayoutLaw }
{}
