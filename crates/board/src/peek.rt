//! A post's looks at its lanes.
ghost use Rattle.std.specs.Prelude.{◌≡◌, ◌≢◌, ℕ, ◌<◌, ◌≤◌, ◌==◌, suc, true, false, Ok};
ghost use Rattle.board_table.specs.Layout.{put_word};
ghost use Rattle.board.specs.Views.{PostView, Sound, Stays};
ghost use Rattle.board.specs.Parked.{IsAtBoard};
ghost use Rattle.board.specs.Taking.{IsLaneFrom, IsFoundEmpty};
ghost use Rattle.board.specs.Peeking.{Peeks, ArePeeked, PeeksAmong, others};

use crate::answer::{Peek, Scan};
use crate::error::TakeError;
use crate::parked::Parked;
use crate::post::Post;
use board_table::{Lane, SharedTable, look, look_there};
use chart::InstanceNo;

/// How many lanes are looked at in one turn of the loop over lanes.
const LANES_A_TURN: usize = 4;

impl Parked {
    /// Whether a message waits on the lane from an instance. It receives no message. F14 or F13 refuses it. It looks at
    /// what was sent only if it knows of no message. It takes no memory.
    #[inline(always)]
    pub fn peek(&mut self, words: &SharedTable, from: InstanceNo) -> Result<Peek, TakeError>
        requires board { IsAtBoard words.now.key words.now.table_id self.old }
        ensures sound { Sound self.old self.new }
        ensures answer { Peeks self.old from result self.new }
    {
        // The prover knows the invariant of a post only after a field of it is used.
        let _ = &self.seat;
        let lane = self.lane_from(from)?;
        Ok(self.peek_at(words, &lane, from.place()))
    }

    /// The same for this lane, from the instance at this place.
    #[inline(always)]
    fn peek_at(&mut self, words: &SharedTable, lane: &Lane, place: usize) -> Peek
        requires board { IsAtBoard words.now.key words.now.table_id self.old }
        requires lane { IsLaneFrom self.old (suc place) lane.now }
        ensures sound { Sound self.old self.new }
        ensures answer { Peeks self.old (suc place) (Ok result) self.new }
    {
        let end = &mut self.incoming[place];
        let taken = end.taken;
        if taken < end.known_put {
            return Peek::Message;
        }
        let word = look(words, &mut self.seat, lane);
        if word == 2 * taken {
            return Peek::Nothing;
        }
        end.known_put = word / 2;
        if taken < end.known_put {
            return Peek::Message;
        }
        Peek::Ended
    }

    /// Whether a message waits on a lane from an instance with a number above `from` and up to `to`, except the post's
    /// own. It receives no message. It looks at these lanes in turn until it finds a message. It takes no memory.
    #[inline(always)]
    pub fn peek_among(&mut self, words: &SharedTable, from: usize, to: usize) -> Scan
        requires board { IsAtBoard words.now.key words.now.table_id self.old }
        requires order { from ≤ to }
        requires within { to ≤ self.old.board.size }
        ensures sound { Sound self.old self.new }
        ensures answer { PeeksAmong self.old (others self.old.number from to) result self.new }
    {
        let number = self.number;
        let shape = self.shape;
        prove!(to <= shape.instances);
        let own = number.place();
        let mut is_end = true;
        let mut place = from;
        while place < to {
            if place == own {
                place += 1;
            } else {
                let limit = if place < own { to.min(own) } else { to };
                let next = self.pass_open(words, place, limit);
                is_end = is_end & (next == place);
                place = next;
                if place < limit {
                    let other = InstanceNo::at_place(place);
                    let lane = Lane::new(&shape, other, number);
                    match self.peek_at(words, &lane, place) {
                        Peek::Message => return Scan::Message(other),
                        Peek::Nothing => is_end = false,
                        Peek::Ended => {}
                    }
                    place += 1;
                }
            }
        }
        if is_end { Scan::Ended } else { Scan::Nothing }
    }

    /// Looks at the lanes from the instances with a number above `from` and up to `to`, none of which is the post's
    /// own. It goes on as long as the lanes are open and have no message, and returns how far it came.
    ///
    /// One turn of the loop looks at several lanes: the compiler unrolls them.
    #[inline(always)]
    fn pass_open(&mut self, words: &SharedTable, from: usize, to: usize) -> usize
        requires board { IsAtBoard words.now.key words.now.table_id self.old }
        requires order { from < to }
        requires within { to ≤ self.old.board.size }
        requires apart { (place : ℕ) → from ≤ place → place < to → suc place ≢ self.old.number }
        ensures sound { Sound self.old self.new }
        ensures within { (from ≤ result) × (result ≤ to) }
        ensures open { (after : PostView) × Sound self.old after
            × ArePeeked self.old (others self.old.number from result) (result == from) after
            × Sound after self.new × Stays after self.new × (result ≡ to → after ≡ self.new) }
    {
        let number = self.number;
        let shape = self.shape;
        prove!(to <= shape.instances);
        let mut place = from;
        let mut word = Lane::new(&shape, InstanceNo::at_place(from), number).put_word();
        while place + LANES_A_TURN <= to {
            for _ in 0..LANES_A_TURN {
                let lane = Lane::new(&shape, InstanceNo::at_place(place), number);
                if !self.finds_nothing(words, &lane, place, word) {
                    return place;
                }
                word = lane.put_word_after(word);
                place += 1;
            }
        }
        while place < to {
            let lane = Lane::new(&shape, InstanceNo::at_place(place), number);
            if !self.finds_nothing(words, &lane, place, lane.put_word()) {
                return place;
            }
            place += 1;
        }
        place
    }

    /// Whether a look at this lane, from the instance at this place, finds it open and without a message. `word` is the
    /// number of the lane's word.
    #[inline(always)]
    fn finds_nothing(&mut self, words: &SharedTable, lane: &Lane, place: usize, word: usize) -> bool
        requires board { IsAtBoard words.now.key words.now.table_id self.old }
        requires lane { IsLaneFrom self.old (suc place) lane.now }
        requires word { word ≡ put_word lane.now.instances lane.now.sender lane.now.receiver }
        ensures sound { Sound self.old self.new }
        ensures stays { Stays self.old self.new }
        ensures nothing { result ≡ true → IsFoundEmpty self.old (suc place) false self.new }
    {
        let taken = self.incoming[place].taken;
        look_there(words, &mut self.seat, lane, word) == 2 * taken
    }
}

impl<'a> Post<'a> {
    /// Whether a message waits on the lane from an instance. It receives no message. F14 or F13 refuses it. It looks at
    /// what was sent only if it knows of no message. It takes no memory.
    #[inline(always)]
    pub fn peek(&mut self, from: InstanceNo) -> Result<Peek, TakeError>
        ensures sound { Sound self.old self.new }
        ensures answer { Peeks self.old from result self.new }
    {
        self.parked.peek(self.words, from)
    }

    /// Whether a message waits on a lane from an instance with a number above `from` and up to `to`, except the post's
    /// own. It receives no message. It looks at these lanes in turn until it finds a message. It takes no memory.
    #[inline(always)]
    pub fn peek_among(&mut self, from: usize, to: usize) -> Scan
        requires order { from ≤ to }
        requires within { to ≤ self.old.board.size }
        ensures sound { Sound self.old self.new }
        ensures answer { PeeksAmong self.old (others self.old.number from to) result self.new }
    {
        self.parked.peek_among(self.words, from, to)
    }
}
