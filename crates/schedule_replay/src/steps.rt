//! What each command does through the post of its instance.
ghost use Rattle.std.specs.Prelude.{◌≡◌, ◌≢◌, ◌≤◌, ℕ, Option, unwrap_or, Ok};
ghost use Rattle.schedule.specs.Plans.{HasPartner};
ghost use Rattle.schedule_replay.specs.Agreement.{GoesOn, Does};

use board::{CloseError, Post, RegionError, SendError, TakeError, Taken};
use chart::{InstanceNo, Message, Name};
use mailbox::any_from;
use schedule::outcomes::ReplayError;
use schedule::{Action, Word};
use std::alloc::Global;

/// Sends a message of this name, with an empty body.
fn send(
    alloc: Global,
    post: &mut Post<'_>,
    to: InstanceNo,
    name: Name,
) -> Result<Option<Word>, ReplayError>
    requires known { to ≤ post.old.board.size }
    requires two { post.old.number ≢ to }
    requires slots { 1 ≤ post.old.board.capacity }
    ensures goes_on { GoesOn post.old post.new }
    ensures does { (from : Option ℕ) → Does post.old from (Action.Send to name) result post.new from }
{
    let Ok(message) = Message::new(name, Vec::new(alloc)) else {
        unreachable!()
    };
    match post.send(to, message) {
        Ok(_) => Ok(None),
        Err((_, SendError::InCoregion)) => Ok(Some(Word::InCoregion)),
        Err((_, SendError::Closed)) => Ok(Some(Word::Closed)),
        Err((_, SendError::LineFull)) => Ok(Some(Word::LineFull)),
        Err((_, SendError::Full)) => Ok(Some(Word::Full)),
        Err((_, SendError::Memory)) => Err(ReplayError::Memory),
        Err((_, SendError::NoSuchInstance | SendError::ToItself | SendError::TooMany)) => {
            unreachable!()
        }
    }
}

/// Receives the first message that waits on the lane from an instance.
fn receive(
    post: &mut Post<'_>,
    last: &mut Option<InstanceNo>,
    from: InstanceNo,
) -> Result<Option<Word>, ReplayError>
    requires known { from ≤ post.old.board.size }
    requires two { post.old.number ≢ from }
    ensures goes_on { GoesOn post.old post.new }
    ensures does { Does post.old last.old (Action.Receive from) result post.new last.new }
{
    match post.receive(from) {
        Ok(Taken::Got(_)) => {
            *last = Some(from);
            Ok(None)
        }
        Ok(Taken::Nothing) => Ok(Some(Word::Nothing)),
        Ok(Taken::Ended) => Ok(Some(Word::Ended)),
        Err(TakeError::LineFull) => Ok(Some(Word::LineFull)),
        Err(TakeError::Memory) => Err(ReplayError::Memory),
        Err(TakeError::NoSuchInstance | TakeError::ToItself) => unreachable!(),
    }
}

/// Closes the lane to an instance.
fn close(post: &mut Post<'_>, to: InstanceNo) -> Option<Word>
    requires known { to ≤ post.old.board.size }
    requires two { post.old.number ≢ to }
    ensures goes_on { GoesOn post.old post.new }
    ensures does { (from : Option ℕ) → Does post.old from (Action.Close to) (Ok result) post.new from }
{
    match post.close(to) {
        Ok(()) => None,
        Err(CloseError::Closed) => Some(Word::Closed),
        Err(CloseError::NoSuchInstance | CloseError::ToItself) => unreachable!(),
    }
}

/// Opens a coregion.
fn open(post: &mut Post<'_>) -> Option<Word>
    ensures goes_on { GoesOn post.old post.new }
    ensures does { (from : Option ℕ) → Does post.old from Action.Open (Ok result) post.new from }
{
    match post.open_coregion() {
        Ok(()) => None,
        Err(RegionError::CoregionOpen) => Some(Word::Open),
        Err(RegionError::CoregionNotOpen) => unreachable!(),
    }
}

/// Closes the coregion that is open.
fn shut(post: &mut Post<'_>) -> Option<Word>
    ensures goes_on { GoesOn post.old post.new }
    ensures does { (from : Option ℕ) → Does post.old from Action.Shut (Ok result) post.new from }
{
    match post.close_coregion() {
        Ok(()) => None,
        Err(RegionError::CoregionNotOpen) => Some(Word::NotOpen),
        Err(RegionError::CoregionOpen) => unreachable!(),
    }
}

/// Receives from the first instance in scan order from which a message waits.
fn receive_any(
    post: &mut Post<'_>,
    last: &mut Option<InstanceNo>,
) -> Result<Option<Word>, ReplayError>
    requires known { unwrap_or last.old 0 ≤ post.old.board.size }
    ensures goes_on { GoesOn post.old post.new }
    ensures does { Does post.old last.old Action.Any result post.new last.new }
{
    match any_from(post, *last) {
        Ok(Taken::Got(arrival)) => {
            *last = Some(arrival.from);
            Ok(None)
        }
        Ok(Taken::Nothing) => Ok(Some(Word::Nothing)),
        Ok(Taken::Ended) => Ok(Some(Word::Ended)),
        Err(TakeError::LineFull) => Ok(Some(Word::LineFull)),
        Err(TakeError::Memory) => Err(ReplayError::Memory),
        Err(TakeError::NoSuchInstance | TakeError::ToItself) => unreachable!(),
    }
}

/// Does the action of a command of the post's instance. The answer is `None`, or the word of the command's note.
pub fn act(
    alloc: Global,
    post: &mut Post<'_>,
    last: &mut Option<InstanceNo>,
    action: Action,
) -> Result<Option<Word>, ReplayError>
    requires slots { 1 ≤ post.old.board.capacity }
    requires partner { HasPartner post.old.board.size post.old.number action }
    requires known { unwrap_or last.old 0 ≤ post.old.board.size }
    ensures goes_on { GoesOn post.old post.new }
    ensures does { Does post.old last.old action result post.new last.new }
{
    match action {
        Action::Send { to, name } => send(alloc, post, to, name),
        Action::Receive { from } => receive(post, last, from),
        Action::Any => receive_any(post, last),
        Action::Close { to } => Ok(close(post, to)),
        Action::Open => Ok(open(post)),
        Action::Shut => Ok(shut(post)),
    }
}
