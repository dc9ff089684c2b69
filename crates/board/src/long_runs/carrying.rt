//! How a new board takes over what another one left.
ghost use Rattle.std.specs.Prelude.{◌≡◌, ℕ, suc, ◌<◌, ◌≤◌, List, map, length, slice_get, Some, IfOk, OnOk};
ghost use Rattle.std.specs.List.{range_with_len};
ghost use Rattle.chart.specs.declared.line.TheConstants.{MAX_EVENTS};
ghost use Rattle.board.specs.Views.{PostView};
ghost use Rattle.board.specs.Meeting.{AreOfOneBoard};
ghost use Rattle.board.specs.Gathering.{left_view, closed_view};
ghost use Rattle.board.specs.LongRuns.CarriedHistories.{sent_again_by};
ghost use Rattle.board.specs.LongRuns.CarryingOver.{MayAllCarry, CarriesOver, HaveMoreRoom, KeepLanes};
ghost use Rattle.board.specs.LongRuns.CarryingSteps.{HaveReserved};

use crate::long_runs::steps::{close_lanes, send_left};
use crate::{ClosedLane, Left, Memory, Post, are_all, meet};
use std::alloc::{AllocError, Global};
use thiserror::Error;

/// What was carried over.
#[derive(Debug, Drop)]
pub struct Carried {
    /// How many of the carried sends each instance made, by instance. They are the first events of its line.
    ///
    /// A race whose earlier event is a carried send may be enforced by what was seen on the earlier board.
    pub sends: Vec<usize>,
}

/// Why nothing is carried over: the first of these that applies.
#[derive(Clone, Copy, Debug, PartialEq, Eq, Error)]
pub enum CarryCause {
    /// F15: there are no posts, or not all of their board.
    #[error("not all posts of the board")]
    NotAllPosts,
    /// F6: a growth was refused.
    #[error("out of memory")]
    Memory,
}

/// Nothing was carried over: what was left comes back as it was.
#[derive(Debug, Drop)]
pub struct CarryError {
    pub left: Vec<Left>,
    pub cause: CarryCause,
}

/// How many of the messages in `left` an instance sends again.
fn count_sends(left: &[Left], sender: usize) -> usize
    requires { sent_again_by sender (map left_view left.now) ≤ MAX_EVENTS }
    ensures { result ≡ sent_again_by sender (map left_view left.now) }
{
    let mut sends = 0;
    for lane in left {
        if lane.sender.number() == sender {
            sends += lane.messages.len();
        }
    }
    sends
}

/// How many of the messages in `left` each instance sends again. F6: it fails only if there is no memory.
fn count_all_sends(alloc: Global, left: &[Left], instances: usize) -> Result<Vec<usize>, AllocError>
    requires { (p : ℕ) → sent_again_by p (map left_view left.now) ≤ MAX_EVENTS }
    ensures { IfOk result (λ sends. sends.items
        ≡ map (λ p. sent_again_by p (map left_view left.now)) (range_with_len 1 instances)) }
{
    let mut sends = Vec::with_capacity(alloc, instances)?;
    for place in 0..instances {
        sends.push_reserved(count_sends(left, place + 1));
    }
    Ok(sends)
}

/// The place of the post's instance among those of its board.
fn place_on_board(post: &Post) -> usize
    ensures number { post.now.number ≡ suc result }
    ensures among { result < post.now.board.size }
{
    let place = post.number().place();
    prove!(place < post.board_size());
    place
}

/// Makes room on the line of each post for its instance's number of sends. F6: it fails only if there is no memory.
fn reserve_sends(posts: &mut [Post], sends: &[usize]) -> Result<(), Memory>
    requires sized { (i : ℕ) (post : PostView) → slice_get posts.old i ≡ Some post
        → post.board.size ≡ length sends.now }
    requires within_limit { (i : ℕ) (many : ℕ) → slice_get sends.now i ≡ Some many → many ≤ MAX_EVENTS }
    ensures more { HaveMoreRoom posts.old posts.new }
    ensures ok { OnOk result (HaveReserved sends.now posts.old posts.new) }
{
    for place in 0..posts.len() {
        let many = sends[place_on_board(&posts[place])];
        posts[place].reserve(many)?;
    }
    Ok(())
}

/// Carries over to all posts of a new board what another board left. The new board has as many instances, and its lanes
/// have at least as many slots. Each message that was left is sent again by its sender, lane by lane, in the order in
/// which it waited. Then each lane that was closed is closed again, even if nothing waits on it. So the same messages
/// wait on each lane as were left there.
///
/// The posts may come in any order; they have all met afterwards. The first of F15 and F6 that applies refuses it. Then
/// nothing was sent, and what was left comes back as it was: all memory is there before the first message is sent.
///
/// A race whose earlier event is a carried send may be enforced by what was seen on the earlier board: see [`Carried`].
pub fn carry_over(
    alloc: Global,
    posts: &mut [Post],
    left: Vec<Left>,
    closed: &[ClosedLane],
) -> Result<Carried, CarryError>
    requires board { AreOfOneBoard posts.old }
    requires may { MayAllCarry (map left_view left.items) (map closed_view closed.now) posts.old }
    ensures carries { CarriesOver left.items closed.now posts.old result posts.new }
    ensures lanes { IfOk result (λ _. KeepLanes (map left_view left.items) (map closed_view closed.now) posts.new) }
{
    if !are_all(posts) {
        return Err(CarryError {
            left,
            cause: CarryCause::NotAllPosts,
        });
    }
    let instances = posts[0].board_size();
    let sends = match count_all_sends(alloc, left.as_slice(), instances) {
        Ok(sends) => sends,
        Err(AllocError) => {
            return Err(CarryError {
                left,
                cause: CarryCause::Memory,
            });
        }
    };
    match reserve_sends(posts, sends.as_slice()) {
        Ok(()) => {}
        Err(Memory) => {
            return Err(CarryError {
                left,
                cause: CarryCause::Memory,
            });
        }
    }
    meet(posts);
    send_left(posts, left);
    close_lanes(posts, closed);
    Ok(Carried { sends })
}
