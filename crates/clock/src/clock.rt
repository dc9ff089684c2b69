//! The clock of an instance.
ghost use Rattle.std.specs.Prelude.{◌≡◌, ◌≤◌, ℕ, length, replicate, nat_eq, All, IsOk, IfOk, OnOk, OnErr};
ghost use Rattle.std.specs.Cmp.{partial_equiv_from_equiv};
ghost use Rattle.std.specs.Cmp.Lexicographic.{pointwise, nat_list_eq_equiv};
ghost use Rattle.clock.specs.Clocks.{entry_of, with_entry, merged};
ghost use Rattle.clock.specs.Diffs.{IsDiff, apply_diff, AgreeBut};

use crate::Diff;
use crate::entries::{entry_after, raise, set_changes};
use chart::{InstanceNo, MAX_INSTANCES};
use smallvec::SmallVec;
use std::alloc::{AllocError, Global};
use std::marker::Model;

/// The most entries that a [`Clock`] has in place, and the most changes that a [`Diff`] has. With more they take
/// memory. So nothing takes memory here for up to this many instances.
pub const INLINE_ENTRIES: usize = 8;

const _: () = prove!(INLINE_ENTRIES == 8);

/// A vector time: one entry for each of 2 to [`MAX_INSTANCES`] instances (Fidge 1988, Mattern 1989). Up to
/// [`INLINE_ENTRIES`] entries are in place.
///
/// A contract sees the list of the entries. The entry of instance `p` is at index `p - 1`.
#[derive(Debug, Drop)]
pub struct Clock {
    entries: SmallVec<u32, INLINE_ENTRIES>,
}

impl Model for Clock {
    ghost use Rattle.std.specs.Prelude.{ℕ, ◌≡◌, ◌≤◌, List, length};
    ghost use Rattle.chart.specs.declared.instance.TheConstants.{MAX_INSTANCES};

    ghost Value = { List ℕ };

    ghost view = { λ clock. clock.entries.items };

    ghost invariant = { λ clock. (2 ≤ length clock.entries.items) × (length clock.entries.items ≤ MAX_INSTANCES) };
}

impl Clock {
    /// The clock of `n` instances, none of whose events are known.
    ///
    /// F6: it fails only if there is no memory for more than [`INLINE_ENTRIES`] entries. With fewer it takes none.
    pub fn zero(alloc: Global, n: usize) -> Result<Clock, AllocError>
        requires at_least_two { 2 ≤ n }
        requires at_most { n ≤ MAX_INSTANCES }
        ensures value { IfOk result (λ clock. clock ≡ replicate n 0) }
        ensures len { IfOk result (λ clock. length clock ≡ n) }
        ensures succeeds { n ≤ INLINE_ENTRIES → IsOk result }
    {
        Ok(Clock {
            entries: SmallVec::from_elem(alloc, 0, n)?,
        })
    }

    /// How many instances have an entry.
    #[inline(always)]
    pub fn len(&self) -> usize
        ensures value { result ≡ length self.now }
        ensures at_least_two { 2 ≤ result }
        ensures at_most { result ≤ MAX_INSTANCES }
    {
        self.entries.len()
    }

    /// The entry of instance `p`: how many of its events are known.
    #[inline(always)]
    pub fn entry(&self, p: InstanceNo) -> u32
        requires { p ≤ length self.now }
        ensures { result ≡ entry_of self.now p }
    {
        self.entries.as_slice()[p.place()]
    }

    /// The entry of instance `p` after the difference, if it were applied. Nothing is changed.
    #[inline(always)]
    pub fn entry_after(&self, diff: &Diff, p: InstanceNo) -> u32
        requires entry { p ≤ length self.now }
        requires changes { All (λ change. change.instance ≤ length self.now) diff.now }
        ensures { result ≡ entry_of (apply_diff self.now diff.now) p }
    {
        entry_after(self.entries.as_slice(), diff.changes(), p)
    }

    /// Raises each entry to the other clock's, if that is greater. It takes no memory.
    #[inline(always)]
    pub fn merge(&mut self, other: &Clock)
        requires { length self.old ≡ length other.now }
        ensures value { self.new ≡ merged self.old other.now }
        ensures len { length self.new ≡ length self.old }
    {
        raise(self.entries.as_mut_slice(), other.entries.as_slice());
    }

    /// A copy.
    ///
    /// F6: it fails only if there is no memory for more than [`INLINE_ENTRIES`] entries. With fewer it takes none.
    #[inline(always)]
    pub fn copied(&self, alloc: Global) -> Result<Clock, AllocError>
        ensures value { IfOk result (λ clock. clock ≡ self.now) }
        ensures len { IfOk result (λ clock. length clock ≡ length self.now) }
        ensures succeeds { length self.now ≤ INLINE_ENTRIES → IsOk result }
    {
        Ok(Clock {
            entries: SmallVec::from_slice(alloc, self.entries.as_slice())?,
        })
    }

    /// A copy whose entry for `p` is `index`: the clock of the event of `p` with this number.
    ///
    /// F6: it fails only if there is no memory, like [`Clock::copied`].
    #[inline(always)]
    pub fn stamped(&self, alloc: Global, p: InstanceNo, index: u32) -> Result<Clock, AllocError>
        requires { p ≤ length self.now }
        ensures value { IfOk result (λ clock. clock ≡ with_entry self.now p index) }
        ensures len { IfOk result (λ clock. length clock ≡ length self.now) }
        ensures succeeds { length self.now ≤ INLINE_ENTRIES → IsOk result }
    {
        let mut stamped = self.copied(alloc)?;
        stamped.stamp(p, index);
        Ok(stamped)
    }

    /// Sets the entry for `p` to `index` in place. It takes no memory.
    #[inline(always)]
    pub fn stamp(&mut self, p: InstanceNo, index: u32)
        requires { p ≤ length self.old }
        ensures value { self.new ≡ with_entry self.old p index }
        ensures len { length self.new ≡ length self.old }
    {
        self.entries.as_mut_slice()[p.place()] = index;
    }

    /// The entries that differ from those of `base`, in rising order of instances. Applied to `base` they give this
    /// clock.
    ///
    /// F6: it fails only if there is no memory for more than [`INLINE_ENTRIES`] changes. With fewer it takes none.
    #[inline(always)]
    pub fn diff_from(&self, alloc: Global, base: &Clock) -> Result<Diff, AllocError>
        requires { length self.now ≡ length base.now }
        ensures exact { IfOk result (IsDiff base.now self.now) }
        ensures restores { IfOk result (λ diff. apply_diff base.now diff ≡ self.now) }
        ensures within { IfOk result (All (λ change. change.instance ≤ length self.now)) }
        ensures at_most { IfOk result (λ diff. length diff ≤ length self.now) }
        ensures succeeds { length self.now ≤ INLINE_ENTRIES → IsOk result }
    {
        let mut diff = Diff::none(alloc);
        self.diff_into(base, &mut diff)?;
        Ok(diff)
    }

    /// Makes `diff` the difference that [`Clock::diff_from`] returns, in place. If it is refused, `diff` may have any
    /// changes.
    ///
    /// F6: it fails only if there is no memory for more than [`INLINE_ENTRIES`] changes. With fewer it takes none: for
    /// up to this many instances, and if only one entry differs.
    #[inline(always)]
    pub fn diff_into(&self, base: &Clock, diff: &mut Diff) -> Result<(), AllocError>
        requires { length self.now ≡ length base.now }
        ensures exact { OnOk result (IsDiff base.now self.now diff.new) }
        ensures restores { OnOk result (apply_diff base.now diff.new ≡ self.now) }
        ensures within { OnOk result (All (λ change. change.instance ≤ length self.now) diff.new) }
        ensures at_most { OnOk result (length diff.new ≤ length self.now) }
        ensures succeeds { length self.now ≤ INLINE_ENTRIES → IsOk result }
        ensures alone { (p : ℕ) → AgreeBut p base.now self.now → IsOk result }
    {
        diff.find(self.entries.as_slice(), base.entries.as_slice())
    }

    /// Makes `diff` the difference that [`Clock::diff_from`] returns, as [`Clock::diff_into`] does, and `base` this
    /// clock, in one pass. If it is refused, `base` is unchanged, and `diff` may have any changes.
    ///
    /// F6: it fails when [`Clock::diff_into`] does.
    #[inline(always)]
    pub fn diff_over(&self, base: &mut Clock, diff: &mut Diff) -> Result<(), AllocError>
        requires { length self.now ≡ length base.old }
        ensures exact { OnOk result (IsDiff base.old self.now diff.new) }
        ensures restores { OnOk result (apply_diff base.old diff.new ≡ self.now) }
        ensures within { OnOk result (All (λ change. change.instance ≤ length self.now) diff.new) }
        ensures at_most { OnOk result (length diff.new ≤ length self.now) }
        ensures base { OnOk result (base.new ≡ self.now) }
        ensures base_err { OnErr result (base.new ≡ base.old) }
        ensures succeeds { length self.now ≤ INLINE_ENTRIES → IsOk result }
        ensures alone { (p : ℕ) → AgreeBut p base.old self.now → IsOk result }
    {
        diff.follow(self.entries.as_slice(), base.entries.as_mut_slice())
    }

    /// Sets the entries that the difference lists. It takes no memory.
    #[inline(always)]
    pub fn apply(&mut self, diff: &Diff)
        requires { All (λ change. change.instance ≤ length self.old) diff.now }
        ensures value { self.new ≡ apply_diff self.old diff.now }
        ensures len { length self.new ≡ length self.old }
    {
        set_changes(self.entries.as_mut_slice(), diff.changes());
    }
}

impl PartialEq for Clock {
    ghost eq = { pointwise nat_eq };

    ghost laws = { partial_equiv_from_equiv nat_list_eq_equiv };

    fn eq(&self, other: &Clock) -> bool {
        self.entries.as_slice() == other.entries.as_slice()
    }
}

impl Eq for Clock {
    ghost laws = { nat_list_eq_equiv };
}
