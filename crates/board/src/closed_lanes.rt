//! The closed lanes of a board.
ghost use Rattle.std.specs.Prelude.{◌≡◌, ◌≢◌, ◌≤◌, ℕ, ◌++◌, List, IfOk, OnOk};
ghost use Rattle.chart.specs.declared.instance.TheConstants.{MAX_INSTANCES};
ghost use Rattle.chart.specs.Histories.{is_closed};
ghost use Rattle.board.specs.Gathering.{LaneEnds, lanes_of, all_lanes};
ghost use Rattle.board.specs.Parting.{AreOf, AreClosed};

use crate::gathering::ClosedLane;
use crate::parked::Parked;
use crate::post::Post;
use crate::reserving::post_of;
use chart::InstanceNo;
use std::alloc::{AllocError, Global};

impl Parked {
    /// Whether the post closed its lane to another instance.
    pub(crate) fn has_closed(&self, to: InstanceNo) -> bool
        requires among { to ≤ self.now.board.size }
        requires not_itself { to ≢ self.now.number }
        ensures { result ≡ is_closed self.now.made self.now.number to }
    {
        self.outgoing[to.place()].closed
    }
}

impl<'a> Post<'a> {
    /// Whether the post closed its lane to another instance.
    fn has_closed(&self, to: InstanceNo) -> bool
        requires among { to ≤ self.now.board.size }
        requires not_itself { to ≢ self.now.number }
        ensures { result ≡ is_closed self.now.made self.now.number to }
    {
        self.parked.has_closed(to)
    }
}

/// Adds the lanes that a sender closed, sorted by receiver. F6: it fails only if there is no memory.
fn find_closed_from(
    posts: &[Post],
    instances: usize,
    sender: usize,
    closed: &mut Vec<ClosedLane>,
) -> Result<(), AllocError>
    requires posts { (k : ℕ) × AreOf instances k posts.now }
    requires within_limit { instances ≤ MAX_INSTANCES }
    requires sender { (1 ≤ sender) × (sender ≤ instances) }
    ensures { OnOk result ((k : ℕ) (lanes : List LaneEnds) → AreOf instances k posts.now
        → AreClosed posts.now lanes closed.old.items
        → AreClosed posts.now (lanes ++ lanes_of instances sender) closed.new.items) }
{
    let post = post_of(posts, sender);
    for place in 0..instances {
        if place + 1 != sender {
            let receiver = InstanceNo::at_place(place);
            if post.has_closed(receiver) {
                closed.push(ClosedLane {
                    sender: post.number(),
                    receiver,
                })?;
            }
        }
    }
    Ok(())
}

/// The closed lanes, sorted by sender and then receiver. F6: it fails only if there is no memory.
pub(crate) fn find_closed(
    alloc: Global,
    posts: &[Post],
    instances: usize,
) -> Result<Vec<ClosedLane>, AllocError>
    requires posts { (k : ℕ) × AreOf instances k posts.now }
    requires within_limit { instances ≤ MAX_INSTANCES }
    ensures { IfOk result (λ closed. (k : ℕ) → AreOf instances k posts.now
        → AreClosed posts.now (all_lanes instances) closed.items) }
{
    let mut closed = Vec::new(alloc);
    for place in 0..instances {
        find_closed_from(posts, instances, place + 1, &mut closed)?;
    }
    Ok(closed)
}
