//! Receives from whichever instance has a message, for a post that borrows nothing.
ghost use Rattle.std.specs.Prelude.{◌≤◌};
ghost use Rattle.chart.specs.Scans.{scan};
ghost use Rattle.board.specs.Views.{Sound};
ghost use Rattle.board.specs.Parked.{IsAtBoard};
ghost use Rattle.board.specs.Taking.{Takes};
ghost use Rattle.board.specs.Peeking.{PeeksAmong};
ghost use Rattle.mailbox.specs.TakingAny.{TakesAny};

use board::{Parked, Scan, SharedTable, TakeError, Taken};
use chart::InstanceNo;

/// Receives the first message that it finds on the lanes to a post. It looks at them in cyclic order, after the lane
/// from the instance `last`, 0 for none, as [`mailbox::any_from`] does.
pub(crate) fn any_after(
    post: &mut Parked,
    words: &SharedTable,
    last: usize,
) -> Result<Taken, TakeError>
    requires known { last ≤ post.old.board.size }
    requires board { IsAtBoard words.now.key words.now.table_id post.old }
    ensures sound { Sound post.old post.new }
    ensures answer { TakesAny post.old last result post.new }
{
    let size = post.board_size();
    prove!(last <= size);
    match scan_after(post, words, last) {
        Scan::Message(other) => receive_found(post, words, other),
        Scan::Nothing => Ok(Taken::Nothing),
        Scan::Ended => Ok(Taken::Ended),
    }
}

/// Whether a message waits on one of the lanes to a post. It looks at them in cyclic order after the instance `last`,
/// until it finds a message.
fn scan_after(post: &mut Parked, words: &SharedTable, last: usize) -> Scan
    requires known { last ≤ post.old.board.size }
    requires board { IsAtBoard words.now.key words.now.table_id post.old }
    ensures sound { Sound post.old post.new }
    ensures answer { PeeksAmong post.old (scan post.old.board.size post.old.number last) result post.new }
{
    let size = post.board_size();
    match post.peek_among(words, last, size) {
        Scan::Message(other) => Scan::Message(other),
        Scan::Ended => post.peek_among(words, 0, last),
        Scan::Nothing => match post.peek_among(words, 0, last) {
            Scan::Message(other) => Scan::Message(other),
            Scan::Nothing => Scan::Nothing,
            Scan::Ended => Scan::Nothing,
        },
    }
}

/// Receives the message that was found on the lane from this instance. This function isn't inlined, so a scan that
/// finds no message prepares nothing for a receive.
#[inline(never)]
fn receive_found(
    post: &mut Parked,
    words: &SharedTable,
    from: InstanceNo,
) -> Result<Taken, TakeError>
    requires board { IsAtBoard words.now.key words.now.table_id post.old }
    ensures sound { Sound post.old post.new }
    ensures answer { Takes post.old from result post.new }
{
    post.receive(words, from)
}
