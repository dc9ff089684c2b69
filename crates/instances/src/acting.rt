//! Acts, made by a mailbox.
ghost use Rattle.std.specs.Prelude.{◌≡◌};
ghost use Rattle.instances.specs.Answering.{send_answer, take_answer, close_answer, region_answer, Performs};

use behaviour::{Act, Answer};
use board::{CloseError, RegionError, SendError, Sent, TakeError, Taken};
use chart::Message;
use mailbox::Mailbox;

/// Does an act, and returns the answer to it. Stopping does nothing and has no answer.
pub(crate) fn perform(mailbox: &mut Mailbox, act: Act) -> Option<Answer>
    ensures { Performs mailbox.old act result mailbox.new }
{
    match act {
        Act::Send(to, message) => Some(send_answer(mailbox.send(to, message))),
        Act::Receive(from) => Some(take_answer(mailbox.receive(from))),
        Act::Any => Some(take_answer(mailbox.any())),
        Act::Close(to) => Some(close_answer(mailbox.close(to))),
        Act::Open => Some(region_answer(mailbox.open_coregion())),
        Act::Shut => Some(region_answer(mailbox.close_coregion())),
        Act::Stop => None,
    }
}

fn send_answer(sent: Result<Sent, (Message, SendError)>) -> Answer
    ensures { result ≡ send_answer sent }
{
    match sent {
        Ok(sent) => Answer::Sent(sent.event),
        Err((message, error)) => Answer::Unsent(message, error),
    }
}

fn take_answer(taken: Result<Taken, TakeError>) -> Answer
    ensures { result ≡ take_answer taken }
{
    match taken {
        Ok(Taken::Got(arrival)) => Answer::Got(arrival),
        Ok(Taken::Nothing) => Answer::Nothing,
        Ok(Taken::Ended) => Answer::Ended,
        Err(error) => Answer::Unreceived(error),
    }
}

fn close_answer(closed: Result<(), CloseError>) -> Answer
    ensures { result ≡ close_answer closed }
{
    match closed {
        Ok(()) => Answer::NowClosed,
        Err(error) => Answer::Unclosed(error),
    }
}

fn region_answer(marked: Result<(), RegionError>) -> Answer
    ensures { result ≡ region_answer marked }
{
    match marked {
        Ok(()) => Answer::Marked,
        Err(error) => Answer::Unmarked(error),
    }
}
