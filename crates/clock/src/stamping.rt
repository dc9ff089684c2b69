//! The next clock of the same instance, as a difference.
ghost use Rattle.std.specs.Prelude.{◌≡◌, ◌≢◌, ◌≤◌, length, All};
ghost use Rattle.clock.specs.Clocks.{entry_of, with_entry};
ghost use Rattle.clock.specs.Diffs.{IsDiff, apply_diff};

use crate::{Change, Clock, Diff};
use chart::InstanceNo;

impl Clock {
    /// Sets the entry for `p` to `index`, which it wasn't, as [`Clock::stamp`] does, and makes `diff` the difference of
    /// this one entry. Nothing is compared. The old changes of `diff` are dropped. It takes no memory.
    #[inline(always)]
    pub fn stamp_over(&mut self, p: InstanceNo, index: u32, diff: &mut Diff)
        requires entry { p ≤ length self.old }
        requires changes { entry_of self.old p ≢ index }
        ensures value { self.new ≡ with_entry self.old p index }
        ensures len { length self.new ≡ length self.old }
        ensures exact { IsDiff self.old self.new diff.new }
        ensures restores { apply_diff self.old diff.new ≡ self.new }
        ensures within { All (λ change. change.instance ≤ length self.old) diff.new }
    {
        diff.become_one(Change {
            instance: p,
            entry: index,
        });
        self.stamp(p, index);
    }
}
