//! Operations of clocks on their entries, as slices.
ghost use Rattle.std.specs.Prelude.{◌≡◌, ◌≤◌, ◌+◌, ℕ, true, length, take, slice_index, All, IsSome, IfSome, IfNone};
ghost use Rattle.clock.specs.Clocks.{entry_of, merged};
ghost use Rattle.clock.specs.Diffs.{IsDiff, apply_diff, AgreeBut};

use crate::{Change, INLINE_ENTRIES};
use chart::{InstanceNo, MAX_INSTANCES};

/// Raises each entry to the other's, if that is greater.
#[inline(always)]
pub(crate) fn raise(entries: &mut [u32], others: &[u32])
    requires { length entries.old ≡ length others.now }
    ensures { entries.new ≡ merged entries.old others.now }
{
    for (place, other) in others.iter().enumerate() {
        entries[place] = entries[place].max(*other);
    }
}

/// Writes the entries that differ from the base's into the first places, each with its instance. It returns how many
/// there are, or `None` if there are more than places.
#[inline(always)]
pub(crate) fn find_changes(entries: &[u32], base: &[u32], places: &mut [Change]) -> Option<usize>
    requires same_length { length entries.now ≡ length base.now }
    requires limit { length entries.now ≤ MAX_INSTANCES }
    requires places { INLINE_ENTRIES ≤ length places.old }
    ensures len { length places.new ≡ length places.old }
    ensures count { IfSome result (λ count. count ≤ length places.old) }
    ensures exact { IfSome result (λ count. IsDiff base.now entries.now (take count places.new)) }
    ensures restores { IfSome result (λ count. apply_diff base.now (take count places.new) ≡ entries.now) }
    ensures within { IfSome result (λ count.
        All (λ change. change.instance ≤ length entries.now) (take count places.new)) }
    ensures at_most { IfSome result (λ count. count ≤ length entries.now) }
    ensures succeeds { length entries.now ≤ length places.old → IsSome result }
    ensures alone { (p : ℕ) → AgreeBut p base.now entries.now → IsSome result }
{
    if INLINE_ENTRIES < entries.len() {
        return find_by_fours(entries, base, places);
    }
    let mut count = 0;
    for (place, entry) in entries.iter().enumerate() {
        if *entry != base[place] {
            places[count] = Change {
                instance: InstanceNo::at_place(place),
                entry: *entry,
            };
            count += 1;
        }
    }
    Some(count)
}

/// The same, and sets the base's entries to these, in one pass. If there are more changes than places, the base is
/// unchanged.
#[inline(always)]
pub(crate) fn follow(entries: &[u32], base: &mut [u32], places: &mut [Change]) -> Option<usize>
    requires same_length { length entries.now ≡ length base.old }
    requires limit { length entries.now ≤ MAX_INSTANCES }
    requires places { INLINE_ENTRIES ≤ length places.old }
    ensures len { length places.new ≡ length places.old }
    ensures count { IfSome result (λ count. count ≤ length places.old) }
    ensures exact { IfSome result (λ count. IsDiff base.old entries.now (take count places.new)) }
    ensures restores { IfSome result (λ count. apply_diff base.old (take count places.new) ≡ entries.now) }
    ensures within { IfSome result (λ count.
        All (λ change. change.instance ≤ length entries.now) (take count places.new)) }
    ensures at_most { IfSome result (λ count. count ≤ length entries.now) }
    ensures base { IsSome result → base.new ≡ entries.now }
    ensures base_none { IfNone result (base.new ≡ base.old) }
    ensures succeeds { length entries.now ≤ length places.old → IsSome result }
    ensures alone { (p : ℕ) → AgreeBut p base.old entries.now → IsSome result }
{
    if INLINE_ENTRIES < entries.len() {
        let count = find_by_fours(entries, base, places)?;
        set_changes(base, &places[..count]);
        return Some(count);
    }
    let mut count = 0;
    for (place, entry) in entries.iter().enumerate() {
        if *entry != base[place] {
            base[place] = *entry;
            places[count] = Change {
                instance: InstanceNo::at_place(place),
                entry: *entry,
            };
            count += 1;
        }
    }
    Some(count)
}

/// The same as [`find_changes`] for larger boards: four entries at a time are skipped if none of them differs.
#[inline(never)]
fn find_by_fours(entries: &[u32], base: &[u32], places: &mut [Change]) -> Option<usize>
    requires same_length { length entries.now ≡ length base.now }
    requires limit { length entries.now ≤ MAX_INSTANCES }
    requires places { INLINE_ENTRIES ≤ length places.old }
    ensures len { length places.new ≡ length places.old }
    ensures count { IfSome result (λ count. count ≤ length places.old) }
    ensures exact { IfSome result (λ count. IsDiff base.now entries.now (take count places.new)) }
    ensures restores { IfSome result (λ count. apply_diff base.now (take count places.new) ≡ entries.now) }
    ensures within { IfSome result (λ count.
        All (λ change. change.instance ≤ length entries.now) (take count places.new)) }
    ensures at_most { IfSome result (λ count. count ≤ length entries.now) }
    ensures succeeds { length entries.now ≤ length places.old → IsSome result }
    ensures alone { (p : ℕ) → AgreeBut p base.now entries.now → IsSome result }
{
    let mut found = 0;
    let mut place = 0;
    while place < entries.len() {
        if place + 4 <= entries.len() && are_four_same(entries, base, place) {
            place += 4;
        } else if entries[place] == base[place] {
            place += 1;
        } else {
            if found == places.len() {
                return None;
            }
            places[found] = Change {
                instance: InstanceNo::at_place(place),
                entry: entries[place],
            };
            found += 1;
            place += 1;
        }
    }
    Some(found)
}

/// Whether these four entries are the base's. All four are compared, so that the compiler can do it in one step.
#[inline(always)]
fn are_four_same(entries: &[u32], base: &[u32], first: usize) -> bool
    requires same_length { length entries.now ≡ length base.now }
    requires four { first + 4 ≤ length entries.now }
    ensures first { result ≡ true → slice_index entries.now first ≡ slice_index base.now first }
    ensures second { result ≡ true → slice_index entries.now (first + 1) ≡ slice_index base.now (first + 1) }
    ensures third { result ≡ true → slice_index entries.now (first + 2) ≡ slice_index base.now (first + 2) }
    ensures fourth { result ≡ true → slice_index entries.now (first + 3) ≡ slice_index base.now (first + 3) }
{
    (entries[first] == base[first])
        & (entries[first + 1] == base[first + 1])
        & (entries[first + 2] == base[first + 2])
        & (entries[first + 3] == base[first + 3])
}

/// Sets the entries that the changes give.
#[inline(always)]
pub(crate) fn set_changes(entries: &mut [u32], changes: &[Change])
    requires { All (λ change. change.instance ≤ length entries.old) changes.now }
    ensures { entries.new ≡ apply_diff entries.old changes.now }
{
    for change in changes {
        entries[change.instance.place()] = change.entry;
    }
}

/// The entry of an instance after the changes.
#[inline(always)]
pub(crate) fn entry_after(entries: &[u32], changes: &[Change], p: InstanceNo) -> u32
    requires entry { p ≤ length entries.now }
    requires changes { All (λ change. change.instance ≤ length entries.now) changes.now }
    ensures { result ≡ entry_of (apply_diff entries.now changes.now) p }
{
    let mut entry = entries[p.place()];
    for change in changes {
        if change.instance == p {
            entry = change.entry;
        }
    }
    entry
}
