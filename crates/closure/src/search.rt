//! Searching backwards over the pairs that are enforced directly.
//!
//! The events that are a send or before it are, on each line, the events up to some send, the line's front: all events
//! earlier than a send on its line are before it. So only the pairs from a receive to its send have to be followed, and
//! each event is visited once. For a later send of the same line the fronts are no smaller, and the search goes on from
//! where it is.
ghost use Rattle.std.specs.Prelude.{ℕ, ◌≡◌, ◌<◌, ◌≤◌, ◌+◌, ◌-◌, ◌↔◌, suc, max, length, replicate, slice_index, slice_set};
ghost use Rattle.std.specs.Prelude.{IsTrue, IfOk, IfSome, MatchBool, MatchOption};
ghost use Rattle.chart.specs.declared.line.TheConstants.{MAX_EVENTS};
ghost use Rattle.chart.specs.Charts.{Place, at, chart_lines};
ghost use Rattle.chart.specs.Knowing.{IsUpTo};
ghost use Rattle.closure.specs.Faults.{place_of};
ghost use Rattle.closure.specs.Searches.{IsSend, IsReached, IsSearch, AreSeen, HaveGrown};

use crate::linked::Linked;
use crate::numbers::Numbers;
use crate::partner::Partner;
use chart::EventNo;
use std::alloc::{AllocError, Global};

/// How far a search has come.
#[derive(Drop)]
pub struct Search {
    /// For each line, the last send that was reached, or 0.
    pub fronts: Numbers,
    /// For each line, the number of its events that were followed to their sends.
    pub seen: Numbers,
}

impl Search {
    /// A search that has reached nothing yet.
    pub fn new(alloc: Global, lines: usize) -> Result<Search, AllocError>
        ensures { IfOk result (λ search. search ≡ record { fronts = replicate lines 0; seen = replicate lines 0 }) }
    {
        Ok(Search {
            fronts: Numbers::zeros(alloc, lines)?,
            seen: Numbers::zeros(alloc, lines)?,
        })
    }

    /// Whether events of the line have to be followed. The front itself is a send, and needn't be.
    #[inline(always)]
    fn is_pending(&self, line: usize) -> bool
        requires fronts { line < length self.now.fronts }
        requires seen { line < length self.now.seen }
        ensures { MatchBool result (slice_index self.now.seen line + 1 < slice_index self.now.fronts line)
            (slice_index self.now.fronts line ≤ slice_index self.now.seen line + 1) }
    {
        let front = self.fronts.at(line);
        front > 0 && self.seen.at(line) < front - 1
    }

    /// A line with events that have to be followed: the hint, or else the first one.
    fn pending(&self, hint: usize) -> Option<usize>
        requires seen { length self.now.seen ≡ length self.now.fronts }
        requires hint { hint < length self.now.fronts }
        ensures within { IfSome result (λ line. line < length self.now.fronts) }
        ensures pending { MatchOption result (AreSeen self.now.fronts self.now.seen)
            (λ line. slice_index self.now.seen line + 1 < slice_index self.now.fronts line) }
    {
        if self.is_pending(hint) {
            return Some(hint);
        }
        for line in 0..self.fronts.len() {
            if self.is_pending(line) {
                return Some(line);
            }
        }
        None
    }

    /// Reaches the send with this index of a line.
    #[inline(always)]
    fn raise(&mut self, line: usize, index: usize)
        requires { line < length self.old.fronts }
        ensures { self.new ≡ record self.old {
          fronts = slice_set self.old.fronts line (max (slice_index self.old.fronts line) index);
        } }
    {
        let front = self.fronts.at(line).max(index);
        self.fronts.set(line, front);
    }
}

/// Follows the next event of a line that was reached. It returns the line on which the search may go on after this
/// event: that of a receive's send, or else the given one.
#[inline(always)]
fn follow(linked: &Linked<'_>, search: &mut Search, line: usize, next: usize) -> usize
    requires line { line < length linked.now }
    requires next { next < length linked.now }
    requires fronts { length search.old.fronts ≡ length linked.now }
    requires seen { length search.old.seen ≡ length linked.now }
    requires pending { slice_index search.old.seen line < slice_index search.old.fronts line }
    requires within { slice_index search.old.seen line < length (chart_lines linked.now (suc line)) }
    requires short { length (chart_lines linked.now (suc line)) ≤ MAX_EVENTS }
    ensures line { result < length linked.now }
    ensures seen { search.new.seen ≡ slice_set search.old.seen line (slice_index search.old.seen line + 1) }
    ensures whole { length search.new.fronts ≡ length linked.now }
    ensures grown { HaveGrown search.old.fronts search.new.fronts }
    ensures kept { (s : Place)
        → IsSearch (chart_lines linked.now) (length linked.now) s search.old.fronts search.old.seen
        → IsSearch (chart_lines linked.now) (length linked.now) s search.new.fronts search.new.seen }
{
    let place = search.seen.at(line);
    search.seen.set(line, place + 1);
    match linked.partner_of(line, place) {
        Partner::Receiver { .. } => next,
        Partner::Sender {
            line: sender,
            index,
        } => {
            let sender = sender as usize;
            search.raise(sender, index as usize);
            sender
        }
    }
}

/// Follows all events of a line that are before its front. It returns a line on which the search may go on: that of the
/// sender of the last receive among them.
fn follow_line(linked: &Linked<'_>, search: &mut Search, line: usize) -> usize
    requires line { line < length linked.now }
    requires fronts { length search.old.fronts ≡ length linked.now }
    requires seen { length search.old.seen ≡ length linked.now }
    requires pending { slice_index search.old.seen line + 1 < slice_index search.old.fronts line }
    requires within { slice_index search.old.fronts line ≤ length (chart_lines linked.now (suc line)) }
    requires short { length (chart_lines linked.now (suc line)) ≤ MAX_EVENTS }
    ensures line { result < length linked.now }
    ensures seen { search.new.seen ≡ slice_set search.old.seen line (slice_index search.old.fronts line - 1) }
    ensures grown { HaveGrown search.old.fronts search.new.fronts }
    ensures kept { (s : Place)
        → IsSearch (chart_lines linked.now) (length linked.now) s search.old.fronts search.old.seen
        → IsSearch (chart_lines linked.now) (length linked.now) s search.new.fronts search.new.seen }
{
    let end = search.fronts.at(line) - 1;
    let mut next = line;
    while search.seen.at(line) < end {
        next = follow(linked, search, line, next);
    }
    next
}

/// Extends the search to the send with this index of a line, and all events before it. All events that were reached
/// already have to be this send or before it, as after a search for earlier sends of this line.
pub fn reach(linked: &Linked<'_>, search: &mut Search, line: usize, index: usize)
    requires line { line < length linked.now }
    requires send { IsSend (chart_lines linked.now) (at (suc line) index) }
    requires search { IsSearch (chart_lines linked.now) (length linked.now) (at (suc line) index)
        search.old.fronts search.old.seen }
    ensures search { IsSearch (chart_lines linked.now) (length linked.now) (at (suc line) index)
        search.new.fronts search.new.seen }
    ensures reached { IsReached (chart_lines linked.now) (at (suc line) index) search.new.fronts }
{
    prove!(line < linked.len());
    search.raise(line, index);
    let mut next = line;
    while let Some(pending) = search.pending(next) {
        next = follow_line(linked, search, pending);
    }
}

/// Whether an event is the send with this index of a line, or before it.
pub fn is_up_to(
    alloc: Global,
    linked: &Linked<'_>,
    event: &EventNo,
    line: usize,
    index: usize,
) -> Result<bool, AllocError>
    requires line { line < length linked.now }
    requires send { IsSend (chart_lines linked.now) (at (suc line) index) }
    ensures { IfOk result (λ up_to. IsTrue up_to
        ↔ IsUpTo (chart_lines linked.now) (at (suc line) index) (place_of event.now)) }
{
    let place = event.instance.place();
    if place >= linked.len() {
        return Ok(false);
    }
    if event.index == 0 {
        return Ok(false);
    }
    let mut search = Search::new(alloc, linked.len())?;
    reach(linked, &mut search, line, index);
    Ok(event.index as usize <= search.fronts.at(place))
}
