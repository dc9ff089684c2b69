//! The pairs of events of a line that are in the opposite order in another recording.
ghost use Rattle.std.specs.Prelude.{◌≡◌, ◌<◌, ◌≤◌, ◌+◌, ◌++◌, length, map, slice_index_or, None, IfOk, OnOk};
ghost use Rattle.cmd_compare.specs.Pairs.{pair_by, pairs_above, pairs_to, judged, unmatched_to};
ghost use Rattle.cmd_compare.specs.Pairs.{greatest, AreAtMost, AreHighest};

use crate::verdict::{Side, Verdict, verdict_at};
use chart::InstanceNo;
use std::alloc::{AllocError, Global};

/// Two events of a line in opposite orders, with their numbers in both recordings.
#[derive(Clone, Copy, Debug, PartialEq, Eq)]
pub struct Pair {
    pub earlier: usize,
    pub later: usize,
    pub earlier_there: usize,
    pub later_there: usize,
}

/// Two events in opposite orders, and their verdicts. `here` is for the earlier event before the later one in this
/// recording, and `there` for the opposite order in the other recording.
#[derive(Clone, Copy, Debug, PartialEq, Eq)]
pub struct Difference {
    pub instance: InstanceNo,
    pub pair: Pair,
    pub here: Verdict,
    pub there: Verdict,
}

/// Adds the events at these places, if they are in opposite orders.
fn add_pair(
    pairs: &mut Vec<Pair>,
    found: &[Option<usize>],
    earlier: usize,
    later: usize,
) -> Result<(), AllocError>
    requires earlier { earlier < length found.now }
    requires later { later < length found.now }
    ensures { OnOk result (pairs.new.items ≡ pairs.old.items
        ++ pair_by (earlier + 1) (later + 1) (slice_index_or found.now earlier None)
        (slice_index_or found.now later None)) }
{
    let Some(earlier_there) = found[earlier] else {
        return Ok(());
    };
    let Some(later_there) = found[later] else {
        return Ok(());
    };
    if later_there < earlier_there {
        pairs.push(Pair {
            earlier: earlier + 1,
            later: later + 1,
            earlier_there,
            later_there,
        })?;
    }
    Ok(())
}

/// The greatest number so far, with one more number. It is 0 if there is none.
fn greatest(highest: usize, found: Option<usize>) -> usize
    ensures { result ≡ greatest highest found }
{
    match found {
        Some(there) if highest < there => there,
        _ => highest,
    }
}

/// The first place above this event whose event may follow it there. All numbers at smaller places are at most `there`.
fn first_behind(highest: &[usize], found: &[Option<usize>], there: usize) -> usize
    requires { AreHighest found.now highest.now }
    ensures within { result ≤ length highest.now }
    ensures none { AreAtMost there found.now result }
{
    let mut first = highest.len();
    while first > 0 {
        if highest[first - 1] <= there {
            return first;
        }
        first -= 1;
    }
    first
}

/// Adds the pairs whose later event is at this place. `highest` has the greatest numbers up to each place above it.
fn add_pairs(
    pairs: &mut Vec<Pair>,
    found: &[Option<usize>],
    highest: &[usize],
    later: usize,
) -> Result<(), AllocError>
    requires later { later < length found.now }
    requires highest { AreHighest found.now highest.now }
    requires whole { length highest.now ≡ later }
    ensures { OnOk result (pairs.new.items ≡ pairs.old.items ++ pairs_above found.now later later) }
{
    match found[later] {
        None => return Ok(()),
        Some(there) => {
            for place in first_behind(highest, found, there)..later {
                add_pair(pairs, found, place, later)?;
            }
        }
    }
    Ok(())
}

/// The pairs of a line's events that are in opposite orders, by their later event and then by their earlier one.
pub(crate) fn pairs_of(alloc: Global, found: &[Option<usize>]) -> Result<Vec<Pair>, AllocError>
    ensures { IfOk result (λ pairs. pairs.items ≡ pairs_to found.now (length found.now)) }
{
    let mut pairs = Vec::new(alloc);
    let mut highest = Vec::new(alloc);
    let mut so_far = 0;
    for place in 0..found.len() {
        add_pairs(&mut pairs, found, highest.as_slice(), place)?;
        so_far = greatest(so_far, found[place]);
        highest.push(so_far)?;
    }
    Ok(pairs)
}

/// The numbers of the events that the other recording lacks.
pub(crate) fn unmatched(alloc: Global, found: &[Option<usize>]) -> Result<Vec<usize>, AllocError>
    ensures { IfOk result (λ numbers. numbers.items ≡ unmatched_to found.now (length found.now)) }
{
    let mut numbers = Vec::new(alloc);
    for place in 0..found.len() {
        if found[place].is_none() {
            numbers.push(place + 1)?;
        }
    }
    Ok(numbers)
}

/// The pair with its verdicts in both recordings.
fn judged(instance: InstanceNo, here: &Side<'_>, there: &Side<'_>, pair: &Pair) -> Difference
    ensures { result ≡ judged instance here.now.events.now here.now.fronts.now there.now.events.now
        there.now.fronts.now pair.now }
{
    Difference {
        instance,
        pair: *pair,
        here: verdict_at(here, pair.earlier, pair.later),
        there: verdict_at(there, pair.later_there, pair.earlier_there),
    }
}

/// Each pair with its verdicts in both recordings.
pub(crate) fn judge(
    alloc: Global,
    instance: InstanceNo,
    here: &Side<'_>,
    there: &Side<'_>,
    pairs: &[Pair],
) -> Result<Vec<Difference>, AllocError>
    ensures { IfOk result (λ differences. differences.items
        ≡ map (judged instance here.now.events.now here.now.fronts.now there.now.events.now there.now.fronts.now)
        pairs.now) }
{
    let mut differences = Vec::new(alloc);
    for pair in pairs {
        differences.push(judged(instance, here, there, pair))?;
    }
    Ok(differences)
}
