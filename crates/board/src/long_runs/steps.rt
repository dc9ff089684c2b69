//! What posts do, one after another, to carry over what a board left. They meet after each event, so all of them have
//! seen one history, whose newest event it is.
ghost use Rattle.std.specs.Prelude.{ℕ, ◌++◌, ◌∷◌, List, map, IfSome, IfNone};
ghost use Rattle.chart.specs.declared.history.Occurrence.{Occurrence};
ghost use Rattle.chart.specs.declared.history.Occurrence.TheVariants.{Send, Close};
ghost use Rattle.board.specs.Views.{PostView};
ghost use Rattle.board.specs.Meeting.{IsAt, HasNoPost};
ghost use Rattle.board.specs.Sending.{sends_of};
ghost use Rattle.board.specs.Gathering.{left_view, closed_view};
ghost use Rattle.board.specs.LongRuns.CarriedHistories.{all_again, closes_again};
ghost use Rattle.board.specs.LongRuns.CarryingSteps.{AreOn, MayGoOn};

use crate::{ClosedLane, Left, Post, meet_at};
use chart::{InstanceNo, Message};

/// The place of the post with this number: the number's own place if the post there has it, and otherwise the first
/// such place.
fn place_of(posts: &[Post], number: InstanceNo) -> Option<usize>
    ensures some { IfSome result (λ place. IsAt posts.now place number) }
    ensures none { IfNone result (HasNoPost posts.now number) }
{
    let own = number.place();
    if own < posts.len() && posts[own].number() == number {
        return Some(own);
    }
    for place in 0..posts.len() {
        if posts[place].number() == number {
            return Some(place);
        }
    }
    None
}

/// The sender sends the message to the receiver, and all posts meet.
fn send_again(posts: &mut [Post], sender: InstanceNo, receiver: InstanceNo, message: Message)
    requires may { (n k : ℕ) × (h : List Occurrence) × (old : List PostView)
        × MayGoOn n k h (Send sender receiver message ∷ h) old posts.old }
    ensures { (n k : ℕ) (h : List Occurrence) (old : List PostView)
        → MayGoOn n k h (Send sender receiver message ∷ h) old posts.old
        → AreOn n k (Send sender receiver message ∷ h) old posts.new }
{
    let Some(place) = place_of(posts, sender) else {
        unreachable!()
    };
    let Ok(_) = posts[place].send(receiver, message) else {
        unreachable!()
    };
    meet_at(posts, place);
}

/// The sender sends these messages to the receiver, in their order.
fn send_all_again(
    posts: &mut [Post],
    sender: InstanceNo,
    receiver: InstanceNo,
    messages: Vec<Message>,
)
    requires may { (n k : ℕ) × (h : List Occurrence) × (old : List PostView)
        × MayGoOn n k h (sends_of sender receiver messages.items ++ h) old posts.old }
    ensures { (n k : ℕ) (h : List Occurrence) (old : List PostView)
        → MayGoOn n k h (sends_of sender receiver messages.items ++ h) old posts.old
        → AreOn n k (sends_of sender receiver messages.items ++ h) old posts.new }
{
    for message in messages {
        send_again(posts, sender, receiver, message);
    }
}

/// The lane's sender closes it, and all posts meet.
fn close_again(posts: &mut [Post], lane: ClosedLane)
    requires may { (n k : ℕ) × (h : List Occurrence) × (old : List PostView)
        × MayGoOn n k h (Close lane.sender lane.receiver ∷ h) old posts.old }
    ensures { (n k : ℕ) (h : List Occurrence) (old : List PostView)
        → MayGoOn n k h (Close lane.sender lane.receiver ∷ h) old posts.old
        → AreOn n k (Close lane.sender lane.receiver ∷ h) old posts.new }
{
    let Some(place) = place_of(posts, lane.sender) else {
        unreachable!()
    };
    let Ok(()) = posts[place].close(lane.receiver) else {
        unreachable!()
    };
    meet_at(posts, place);
}

/// Sends again what was left on these lanes, lane by lane, each message by its sender.
pub(crate) fn send_left(posts: &mut [Post], left: Vec<Left>)
    requires may { (n k : ℕ) × (h : List Occurrence) × (old : List PostView)
        × MayGoOn n k h (all_again (map left_view left.items) ++ h) old posts.old }
    ensures { (n k : ℕ) (h : List Occurrence) (old : List PostView)
        → MayGoOn n k h (all_again (map left_view left.items) ++ h) old posts.old
        → AreOn n k (all_again (map left_view left.items) ++ h) old posts.new }
{
    for lane in left {
        send_all_again(posts, lane.sender, lane.receiver, lane.messages);
    }
}

/// Closes these lanes again, one after another, each by its sender.
pub(crate) fn close_lanes(posts: &mut [Post], closed: &[ClosedLane])
    requires may { (n k : ℕ) × (h : List Occurrence) × (old : List PostView)
        × MayGoOn n k h (closes_again (map closed_view closed.now) ++ h) old posts.old }
    ensures { (n k : ℕ) (h : List Occurrence) (old : List PostView)
        → MayGoOn n k h (closes_again (map closed_view closed.now) ++ h) old posts.old
        → AreOn n k (closes_again (map closed_view closed.now) ++ h) old posts.new }
{
    for lane in closed {
        close_again(posts, *lane);
    }
}
