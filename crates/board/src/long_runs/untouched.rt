//! What a post has to be before it takes over what another board left.
ghost use Rattle.std.specs.Prelude.{◌≡◌, ◌≢◌, ◌≤◌, ℕ, true, false};
ghost use Rattle.chart.specs.Histories.{is_closed};
ghost use Rattle.board.specs.LongRuns.CarryingOver.{IsUntouched};

use crate::parked::Parked;
use chart::InstanceNo;

impl Parked {
    /// How many slots each lane of its board has.
    pub fn capacity(&self) -> usize
        ensures { result ≡ self.now.board.capacity }
    {
        self.shape.capacity
    }

    /// Whether the post closed one of its lanes.
    fn has_closed_one(&self) -> bool
        ensures yes { result ≡ true → ((to : ℕ) × (is_closed self.now.made self.now.number to ≡ true)) }
        ensures no { result ≡ false → (to : ℕ) → 1 ≤ to → to ≤ self.now.board.size → to ≢ self.now.number
            → is_closed self.now.made self.now.number to ≡ false }
    {
        for place in 0..self.board_size() {
            if place + 1 != self.number().number() && self.has_closed(InstanceNo::at_place(place)) {
                return true;
            }
        }
        false
    }

    /// Whether the post has made nothing yet, and has no open coregion: it has sent and received nothing, and has
    /// closed no lane. The call takes no memory and looks at nothing.
    pub fn is_untouched(&self) -> bool
        ensures yes { result ≡ true → IsUntouched self.now }
        ensures no { result ≡ false → IsUntouched self.now → ⊥ }
    {
        if self.region > 0 {
            return false;
        }
        if self.line().len() > 0 {
            return false;
        }
        !self.has_closed_one()
    }
}
