//! Receives from whichever instance has a message.
ghost use Rattle.std.specs.Prelude.{◌≤◌, unwrap_or};
ghost use Rattle.chart.specs.Scans.{scan};
ghost use Rattle.board.specs.Views.{Sound};
ghost use Rattle.board.specs.Taking.{Takes};
ghost use Rattle.board.specs.Peeking.{PeeksAmong};
ghost use Rattle.mailbox.specs.TakingAny.{TakesAny};

use board::{Post, Scan, TakeError, Taken};
use chart::InstanceNo;

/// Receives the first message that it finds on the lanes to a post. It looks at them in cyclic order, after the lane
/// from `last`, an instance of the board, or from the lowest number on. If a message waits, F7 and F6 can refuse it as
/// they refuse [`Post::receive`], and then the message is still the first of its lane. If it finds none, the answer is
/// the end if each lane was found ended, and otherwise nothing. It has then looked at each lane, and took no memory.
pub fn any_from(post: &mut Post, last: Option<InstanceNo>) -> Result<Taken, TakeError>
    requires known { unwrap_or last 0 ≤ post.old.board.size }
    ensures sound { Sound post.old post.new }
    ensures answer { TakesAny post.old (unwrap_or last 0) result post.new }
{
    let last = match last {
        Some(instance) => instance.number(),
        None => 0,
    };
    any_after(post, last)
}

/// The same, after the instance with this number, 0 for none.
fn any_after(post: &mut Post, last: usize) -> Result<Taken, TakeError>
    requires known { last ≤ post.old.board.size }
    ensures sound { Sound post.old post.new }
    ensures answer { TakesAny post.old last result post.new }
{
    let size = post.board_size();
    prove!(last <= size);
    match scan_after(post, last) {
        Scan::Message(other) => receive_found(post, other),
        Scan::Nothing => Ok(Taken::Nothing),
        Scan::Ended => Ok(Taken::Ended),
    }
}

/// Whether a message waits on one of the lanes to a post. It looks at them in cyclic order after the instance `last`,
/// until it finds a message.
fn scan_after(post: &mut Post, last: usize) -> Scan
    requires known { last ≤ post.old.board.size }
    ensures sound { Sound post.old post.new }
    ensures answer { PeeksAmong post.old (scan post.old.board.size post.old.number last) result post.new }
{
    let size = post.board_size();
    match post.peek_among(last, size) {
        Scan::Message(other) => Scan::Message(other),
        Scan::Ended => post.peek_among(0, last),
        Scan::Nothing => match post.peek_among(0, last) {
            Scan::Message(other) => Scan::Message(other),
            Scan::Nothing => Scan::Nothing,
            Scan::Ended => Scan::Nothing,
        },
    }
}

/// Receives the message that was found on the lane from this instance. This function isn't inlined, so a scan that
/// finds no message prepares nothing for a receive.
#[inline(never)]
fn receive_found(post: &mut Post, from: InstanceNo) -> Result<Taken, TakeError>
    ensures sound { Sound post.old post.new }
    ensures answer { Takes post.old from result post.new }
{
    post.receive(from)
}
