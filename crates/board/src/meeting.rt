//! How posts meet.
ghost use Rattle.std.specs.Prelude.{◌≡◌, ◌<◌, ◌≤◌, ℕ, length, slice_get, Some, true, false, IfSome, IfNone};
ghost use Rattle.chart.specs.declared.instance.TheConstants.{MAX_INSTANCES};
ghost use Rattle.board_table.specs.Knowing.{held};
ghost use Rattle.board.specs.Views.{PostView};
ghost use Rattle.board.specs.Parked.{IsAtBoard};
ghost use Rattle.board.specs.Meeting.{AreOfOneBoard, HaveMet, HaveSeen, HasSeenAll, HaveHeard, HasNoPost, AreAll};
ghost use Rattle.board.specs.Meeting.{AreNotAll, IsAt, Hears, IsNoteOf, MeetsAll};

use crate::error::MeetError;
use crate::parked::Parked;
use crate::post::Post;
use board_table::{Seat, SharedTable, meet_note, note};

impl Parked {
    /// A note of what it has seen.
    fn note(&mut self, words: &SharedTable) -> Seat
        requires board { IsAtBoard words.now.key words.now.table_id self.old }
        ensures same { self.new ≡ self.old }
        ensures note { IsNoteOf result.table_id result.me self.old }
        ensures seen { (held result.me).seen ≡ self.old.seen }
    {
        note(words, &mut self.seat)
    }

    /// Meets the note, and returns it for the next post.
    fn hear(&mut self, words: &SharedTable, note: Seat) -> Seat
        requires board { IsAtBoard words.now.key words.now.table_id self.old }
        requires note { IsNoteOf note.table_id note.me self.old }
        ensures hears { Hears (held note.me).seen self.old self.new }
        ensures note { IsNoteOf result.table_id result.me self.old }
        ensures seen { (held result.me).seen ≡ self.new.seen }
    {
        meet_note(words, &mut self.seat, note)
    }
}

impl<'a> Post<'a> {
    /// A note of what it has seen.
    fn note(&mut self) -> Seat
        ensures same { self.new ≡ self.old }
        ensures note { IsNoteOf result.table_id result.me self.old }
        ensures seen { (held result.me).seen ≡ self.old.seen }
    {
        self.parked.note(self.words)
    }

    /// Meets the note, and returns it for the next post.
    fn hear(&mut self, note: Seat) -> Seat
        requires note { IsNoteOf note.table_id note.me self.old }
        ensures hears { Hears (held note.me).seen self.old self.new }
        ensures note { IsNoteOf result.table_id result.me self.old }
        ensures seen { (held result.me).seen ≡ self.new.seen }
    {
        self.parked.hear(self.words, note)
    }
}

/// Brings the note to each post in turn, and returns it.
fn hear_each(posts: &mut [Post], note: Seat) -> Seat
    requires note { (i : ℕ) → (post : PostView) → slice_get posts.old i ≡ Some post
        → IsNoteOf note.table_id note.me post }
    ensures heard { HaveHeard (length posts.old) posts.old (held note.me).seen posts.new (held result.me).seen }
    ensures note { (i : ℕ) → (post : PostView) → slice_get posts.old i ≡ Some post
        → IsNoteOf result.table_id result.me post }
{
    let mut note = note;
    for post in posts.iter_mut() {
        note = post.hear(note);
    }
    note
}

/// Lets any posts of one board meet, while other posts move or are gone. Afterwards these posts have all seen one
/// history. The call takes no memory.
pub fn meet(posts: &mut [Post])
    requires board { AreOfOneBoard posts.old }
    ensures met { HaveMet posts.old posts.new }
{
    if posts.is_empty() {
        return;
    }
    let note = posts[0].note();
    let note = hear_each(posts, note);
    hear_each(posts, note);
}

/// Lets any posts of one board meet, if the post at `place` has seen all that the others have seen. Afterwards they
/// have all seen the history of this post. The note goes round once, and not twice as in [`meet`]. The call takes no
/// memory.
pub fn meet_at(posts: &mut [Post], place: usize)
    requires board { AreOfOneBoard posts.old }
    requires ahead { HasSeenAll posts.old place }
    ensures met { HaveMet posts.old posts.new }
    ensures seen { (ahead : PostView) → slice_get posts.old place ≡ Some ahead
        → HaveSeen ahead.seen posts.old posts.new }
{
    let note = posts[place].note();
    hear_each(posts, note);
}

/// The place of a post with this number: place `number - 1` if the post there has it, and otherwise the first such
/// place.
pub fn place_of(posts: &[Post], number: usize) -> Option<usize>
    requires { 1 ≤ number }
    ensures some { IfSome result (λ place. IsAt posts.now place number) }
    ensures none { IfNone result (HasNoPost posts.now number) }
{
    if number <= posts.len() && posts[number - 1].number().number() == number {
        return Some(number - 1);
    }
    for place in 0..posts.len() {
        if posts[place].number().number() == number {
            return Some(place);
        }
    }
    None
}

/// Whether these are all posts of their board. If they are in order, the time depends only on their number.
pub fn are_all(posts: &[Post]) -> bool
    ensures yes { result ≡ true → AreAll posts.now }
    ensures no { result ≡ false → AreNotAll posts.now }
{
    if posts.is_empty() {
        return false;
    }
    for place in 0..posts[0].board_size() {
        if place_of(posts, place + 1).is_none() {
            return false;
        }
    }
    true
}

/// Lets all posts of a board meet. Afterwards they have all seen one history. F15: there are no posts, or not all of
/// their board, and then nothing has changed. The call takes no memory.
pub fn meet_all(posts: &mut [Post]) -> Result<(), MeetError>
    requires board { AreOfOneBoard posts.old }
    ensures met { MeetsAll posts.old result posts.new }
{
    if !are_all(posts) {
        return Err(MeetError::NotAllPosts);
    }
    meet(posts);
    Ok(())
}
