//! Whether a chart can be run: a send can always be made, and a receive once its send was made.
ghost use Rattle.std.specs.Prelude.{◌≡◌, ◌<◌, ◌≤◌, ℕ, suc, true, false, length, slice_index, MatchBool, MatchOption};
ghost use Rattle.std.specs.Prelude.{IfSome, IfOk};
ghost use Rattle.chart.specs.Charts.{chart_lines, IsPossible};
ghost use Rattle.chart.specs.Order.{IsCyclic};
ghost use Rattle.closure.specs.Runs.{IsReady, IsStopped, AreStopped};

use crate::linked::Linked;
use crate::numbers::Numbers;
use crate::partner::Partner;
use std::alloc::{AllocError, Global};

/// Whether the next event of a line can be made, after this number of events of each line.
fn is_ready(linked: &Linked<'_>, made: &Numbers, line: usize) -> bool
    requires made { length made.now ≡ length linked.now }
    requires line { line < length linked.now }
    ensures { MatchBool result (IsReady (chart_lines linked.now) (length linked.now) made.now line)
        (IsStopped (chart_lines linked.now) (length linked.now) made.now line) }
{
    let place = made.at(line);
    if place >= linked.len_of(line) {
        return false;
    }
    match linked.partner_of(line, place) {
        Partner::Receiver { .. } => true,
        Partner::Sender { line, index } => index as usize <= made.at(line as usize),
    }
}

/// A line whose next event can be made: the hint, or else the first one.
fn ready_line(linked: &Linked<'_>, made: &Numbers, hint: usize) -> Option<usize>
    requires made { length made.now ≡ length linked.now }
    requires hint { hint < length linked.now }
    ensures within { IfSome result (λ line. line < length linked.now) }
    ensures ready { MatchOption result (AreStopped (chart_lines linked.now) (length linked.now) made.now)
        (IsReady (chart_lines linked.now) (length linked.now) made.now) }
{
    if is_ready(linked, made, hint) {
        return Some(hint);
    }
    for line in 0..linked.len() {
        if is_ready(linked, made, line) {
            return Some(line);
        }
    }
    None
}

/// Whether all events of all lines were made.
fn are_made(linked: &Linked<'_>, made: &Numbers) -> bool
    requires { length made.now ≡ length linked.now }
    ensures { MatchBool result
        ((p : ℕ) → p < length linked.now → length (chart_lines linked.now (suc p)) ≤ slice_index made.now p)
        ((p : ℕ) × (p < length linked.now) × (slice_index made.now p < length (chart_lines linked.now (suc p)))) }
{
    for line in 0..linked.len() {
        if made.at(line) < linked.len_of(line) {
            return false;
        }
    }
    true
}

/// Whether the chart is possible. If it isn't, the enforced order puts an event before itself.
///
/// Only events that can come are made. So if all were made, the chart is that of a history. If no line can go on, each
/// unfinished line waits for a later send of a line that waits too.
pub fn runs(alloc: Global, linked: &Linked<'_>) -> Result<bool, AllocError>
    ensures { IfOk result (λ runs. MatchBool runs
        (IsPossible (length linked.now) (chart_lines linked.now)) (IsCyclic (chart_lines linked.now))) }
{
    let mut made = Numbers::zeros(alloc, linked.len())?;
    let mut line = 0;
    while let Some(ready) = ready_line(linked, &made, line) {
        made.set(ready, made.at(ready) + 1);
        line = ready;
    }
    Ok(are_made(linked, &made))
}
