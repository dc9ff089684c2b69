//! The differences between clocks.
ghost use Rattle.std.specs.Prelude.{◌≡◌, ◌==◌, ◌≤◌, [], ◌∷◌, ℕ, length, take, All, IsOk, OnOk, OnErr};
ghost use Rattle.smallvec.specs.SmallVec.{small_vec_len};
ghost use Rattle.clock.specs.Diffs.{IsDiff, apply_diff, AgreeBut};

use crate::INLINE_ENTRIES;
use crate::entries::{find_changes, follow};
use chart::{InstanceNo, MAX_INSTANCES};
use smallvec::SmallVec;
use std::alloc::{AllocError, Global};
use std::marker::Model;

/// A changed entry of a clock.
#[derive(Clone, Copy, Debug, PartialEq, Eq)]
pub struct Change {
    /// The instance whose entry it is.
    pub instance: InstanceNo,
    /// The entry after the change.
    pub entry: u32,
}

const BLANK: Change = Change {
    instance: InstanceNo::FIRST,
    entry: 0,
};

/// The unused places of a new [`Diff`]. As a constant they are written by a few wide stores. A value made at run time
/// would be written field by field, with the padding between its fields: three stores for each place.
const BLANKS: [Change; INLINE_ENTRIES] = [BLANK; INLINE_ENTRIES];

/// The places of a [`Diff`] that has had more changes: one for each instance.
const ALL_BLANKS: [Change; MAX_INSTANCES] = [BLANK; MAX_INSTANCES];

impl Default for Change {
    fn default() -> Change {
        BLANK
    }
}

/// The entries of a clock that differ from another clock's. A contract sees the list of the changes.
///
/// Up to [`INLINE_ENTRIES`] changes are in place.
#[derive(Debug, Drop)]
pub struct Diff {
    /// The changes. After them come blanks, and old changes.
    places: SmallVec<Change, INLINE_ENTRIES>,
    /// How many changes there are.
    count: usize,
}

impl Model for Diff {
    ghost use Rattle.std.specs.Prelude.{List, ◌≤◌, length, take};
    ghost use Rattle.clock.specs.declared.diff.Change.{Change};
    ghost use Rattle.clock.specs.declared.clock.TheConstants.{INLINE_ENTRIES};

    ghost Value = { List Change };

    ghost view = { λ diff. take diff.count diff.places.items };

    ghost invariant = { λ diff. (diff.count ≤ length diff.places.items) × (INLINE_ENTRIES ≤ length diff.places.items) };
}

impl Diff {
    /// No changes. It takes no memory.
    #[inline(always)]
    pub fn none(alloc: Global) -> Diff
        ensures { result ≡ [] }
    {
        Diff {
            places: SmallVec::from_buf(alloc, BLANKS),
            count: 0,
        }
    }

    /// The changes, in rising order of instances.
    #[inline(always)]
    pub fn changes(&self) -> &[Change]
        ensures { result.now ≡ self.now }
    {
        if self.places.spilled() {
            return all_of(&self.places, self.count);
        }
        &self.places.as_slice()[..self.count]
    }

    /// How many entries differ.
    #[inline(always)]
    pub fn len(&self) -> usize
        ensures { result ≡ length self.now }
    {
        self.count
    }

    /// Whether no entry differs.
    #[inline(always)]
    pub fn is_empty(&self) -> bool
        ensures { result ≡ (length self.now == 0) }
    {
        self.count == 0
    }

    /// Replaces all changes by this one.
    #[inline(always)]
    pub(crate) fn become_one(&mut self, change: Change)
        ensures { self.new ≡ change ∷ [] }
    {
        self.places.as_mut_slice()[0] = change;
        self.count = 1;
    }

    /// Replaces all changes by the entries that differ from the base's, each with its instance.
    #[inline(always)]
    pub(crate) fn find(&mut self, entries: &[u32], base: &[u32]) -> Result<(), AllocError>
        requires same_length { length entries.now ≡ length base.now }
        requires limit { length entries.now ≤ MAX_INSTANCES }
        ensures exact { OnOk result (IsDiff base.now entries.now self.new) }
        ensures restores { OnOk result (apply_diff base.now self.new ≡ entries.now) }
        ensures within { OnOk result (All (λ change. change.instance ≤ length entries.now) self.new) }
        ensures at_most { OnOk result (length self.new ≤ length entries.now) }
        ensures succeeds { length entries.now ≤ INLINE_ENTRIES → IsOk result }
        ensures alone { (p : ℕ) → AgreeBut p base.now entries.now → IsOk result }
    {
        if let Some(count) = find_changes(entries, base, self.places.as_mut_slice()) {
            self.count = count;
            return Ok(());
        }
        add_places(&mut self.places)?;
        let Some(count) = find_changes(entries, base, self.places.as_mut_slice()) else {
            unreachable!()
        };
        self.count = count;
        Ok(())
    }

    /// The same, and sets the base's entries to these. If it is refused, the base is unchanged.
    #[inline(always)]
    pub(crate) fn follow(&mut self, entries: &[u32], base: &mut [u32]) -> Result<(), AllocError>
        requires same_length { length entries.now ≡ length base.old }
        requires limit { length entries.now ≤ MAX_INSTANCES }
        ensures exact { OnOk result (IsDiff base.old entries.now self.new) }
        ensures restores { OnOk result (apply_diff base.old self.new ≡ entries.now) }
        ensures within { OnOk result (All (λ change. change.instance ≤ length entries.now) self.new) }
        ensures at_most { OnOk result (length self.new ≤ length entries.now) }
        ensures succeeds { length entries.now ≤ INLINE_ENTRIES → IsOk result }
        ensures alone { (p : ℕ) → AgreeBut p base.old entries.now → IsOk result }
        ensures base { OnOk result (base.new ≡ entries.now) }
        ensures base_err { OnErr result (base.new ≡ base.old) }
    {
        if let Some(count) = follow(entries, base, self.places.as_mut_slice()) {
            self.count = count;
            return Ok(());
        }
        self.follow_in_memory(entries, base)
    }

    /// The same, with places in memory for all changes. It is cold, because few differences have more changes than can
    /// be in place.
    #[cold]
    #[inline(never)]
    fn follow_in_memory(&mut self, entries: &[u32], base: &mut [u32]) -> Result<(), AllocError>
        requires same_length { length entries.now ≡ length base.old }
        requires limit { length entries.now ≤ MAX_INSTANCES }
        ensures exact { OnOk result (IsDiff base.old entries.now self.new) }
        ensures restores { OnOk result (apply_diff base.old self.new ≡ entries.now) }
        ensures within { OnOk result (All (λ change. change.instance ≤ length entries.now) self.new) }
        ensures at_most { OnOk result (length self.new ≤ length entries.now) }
        ensures base { OnOk result (base.new ≡ entries.now) }
        ensures base_err { OnErr result (base.new ≡ base.old) }
    {
        add_places(&mut self.places)?;
        let Some(count) = follow(entries, base, self.places.as_mut_slice()) else {
            unreachable!()
        };
        self.count = count;
        Ok(())
    }
}

/// The first `count` changes, if they are in memory. It is cold, because few differences have more changes than can be
/// in place.
#[cold]
#[inline(never)]
fn all_of(places: &SmallVec<Change, INLINE_ENTRIES>, count: usize) -> &[Change]
    requires { count ≤ small_vec_len places.now }
    ensures { result.now ≡ take count places.now.items }
{
    &places.as_slice()[..count]
}

/// Makes a place for each instance.
#[cold]
#[inline(never)]
fn add_places(places: &mut SmallVec<Change, INLINE_ENTRIES>) -> Result<(), AllocError>
    requires { INLINE_ENTRIES ≤ small_vec_len places.old }
    ensures len { OnOk result (MAX_INSTANCES ≤ small_vec_len places.new) }
    ensures err { OnErr result (places.new ≡ places.old) }
{
    *places = SmallVec::from_slice(*places.allocator(), &ALL_BLANKS)?;
    Ok(())
}

impl PartialEq for Diff {
    ghost use Rattle.std.specs.Prelude.{nat_eq};
    ghost use Rattle.std.specs.Cmp.Rules.{comparing};
    ghost use Rattle.std.specs.Ordering.{on, eq_of_both};
    ghost use Rattle.std.specs.Cmp.Lexicographic.{pointwise};
    ghost use Rattle.std.proofs.Common.{rules};
    ghost use Rattle.clock.specs.declared.diff.Change.{Change};

    ghost eq = { pointwise (eq_of_both (on (λ (change : Change). change.instance) nat_eq)
        (on (λ (change : Change). change.entry) nat_eq)) };

    ghost laws = { Prim.search (comparing, rules) };

    fn eq(&self, other: &Diff) -> bool {
        self.changes() == other.changes()
    }
}

impl Eq for Diff {
    ghost use Rattle.std.specs.Cmp.Rules.{comparing};
    ghost use Rattle.std.proofs.Common.{rules};

    ghost laws = { Prim.search (comparing, rules) };
}
