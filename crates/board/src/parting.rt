//! How posts leave their board, and what they leave.
ghost use Rattle.std.specs.Prelude.{◌≡◌, ◌≢◌, ◌+◌, ◌≤◌, ◌<◌, ◌^◌, ℕ, List, [], ◌++◌, length, map, slice_get};
ghost use Rattle.std.specs.Prelude.{vec_capacity, Option, Some, All};
ghost use Rattle.atomic_table.specs.Seated.{TableId};
ghost use Rattle.chart.specs.declared.history.Occurrence.{Occurrence};
ghost use Rattle.board_table.specs.declared.packet.Packet.{Packet};
ghost use Rattle.board_table.specs.Leaving.{ComeFirst, HaveLeft};
ghost use Rattle.board.specs.Views.{PostView, line_of};
ghost use Rattle.board.specs.Meeting.{HasPost};
ghost use Rattle.board.specs.Gathering.{left_view, left_on};
ghost use Rattle.board.specs.Parting.{IsAmong, room_lane, IsLaneRoom, AreForLines};
ghost use Rattle.board.specs.Parting.{HaveSeen, HaveParted, AreReady};

use crate::gathering::Left;
use crate::meeting::place_of;
use crate::post::Post;
use board_table::{Lane, Seat, SharedTable, take_out};
use chart::{Event, InstanceNo, Line, Message};

/// Room for the messages that wait on a lane.
#[derive(Drop)]
pub(crate) struct Room {
    pub lane: Lane,
    pub sender: InstanceNo,
    pub receiver: InstanceNo,
    /// How many messages were received.
    pub taken: u64,
    /// How many wait.
    pub many: u64,
    /// An empty list with room for the waiting messages.
    pub messages: Vec<Message>,
}

/// A post that has left its board, with the messages that waited for it.
#[derive(Drop)]
pub(crate) struct Leaver {
    pub number: InstanceNo,
    pub seat: Seat,
}

impl<'a> Post<'a> {
    /// Leaves the board, with the messages that wait for this post. The post's events go into `events`, which has room
    /// for them. The call takes no memory.
    pub(crate) fn part(self, events: Vec<Event>) -> (Line, Leaver)
        requires empty { events.items ≡ [] }
        requires room { length (line_of self) ≤ vec_capacity events }
        ensures line { result.0 ≡ record { instance = self.entry.number; events = line_of self.entry } }
        ensures table { result.1.seat.table_id ≡ self.entry.board.table }
        ensures left { HaveLeft self.entry.board.size self.entry.board.capacity self.entry.number self.entry.seen 1
            self.entry.board.size result.1.seat.me.1 }
    {
        let Post { words, parked } = self;
        parked.part(words, events)
    }
}

/// Draws the messages for which there is room. They are the first ones of those that left with the seat.
pub(crate) fn take_all(words: &SharedTable, seat: &mut Seat, room: Room) -> Left
    requires table { seat.old.table_id ≡ words.now.table_id }
    requires first { (packets : List Packet) × (others : List (ℕ × Option Packet))
        × ComeFirst room.lane room.taken packets
        seat.old.me.1 others × (length packets ≡ room.many) }
    requires empty { room.messages.items ≡ [] }
    requires enough { room.many ≤ vec_capacity room.messages }
    requires within_word { room.taken + room.many < 2 ^ 64 }
    ensures table { seat.new.table_id ≡ seat.old.table_id }
    ensures sender { result.sender ≡ room.sender }
    ensures receiver { result.receiver ≡ room.receiver }
    ensures drained { (packets : List Packet) (others : List (ℕ × Option Packet))
        → ComeFirst room.lane room.taken packets
        seat.old.me.1 others → length packets ≡ room.many
        → (result.messages.items ≡ map (λ x. x.message) packets)
        × ((more : List (ℕ × Option Packet)) × (seat.new.me.1 ≡ others ++ more)) }
{
    let Room {
        lane,
        sender,
        receiver,
        taken,
        many,
        messages,
    } = room;
    let mut messages = messages;
    for place in 0..many {
        messages.push_reserved(take_out(words, seat, &lane, taken + place));
    }
    Left {
        sender,
        receiver,
        messages,
    }
}

/// Takes the post with this number out of the list.
fn take_post<'a>(posts: &mut Vec<Post<'a>>, number: usize) -> Post<'a>
    requires number { 1 ≤ number }
    requires has { HasPost posts.old.items number }
    ensures number { result.number ≡ number }
    ensures among { IsAmong posts.old.items result }
    ensures kept { (i : ℕ) (post : PostView) → slice_get posts.new.items i ≡ Some post → IsAmong posts.old.items post }
    ensures others { (p : ℕ) → p ≢ number → HasPost posts.old.items p → HasPost posts.new.items p }
{
    let Some(place) = place_of(posts.as_slice(), number) else {
        unreachable!()
    };
    posts.remove(place)
}

/// Lets all posts of a board, which have met, leave it in order of their numbers. `lines` and `leavers` have room for
/// them, and `own_events` has a list for the events of each line.
pub(crate) fn part_all(
    posts: Vec<Post>,
    instances: usize,
    own_events: Vec<Vec<Event>>,
    lines: &mut Vec<Line>,
    leavers: &mut Vec<Leaver>,
)
    requires seen { (k : ℕ) × (table : TableId) × (h : List Occurrence) × HaveSeen instances k table h 0 posts.items
        × AreForLines h instances own_events.items }
    requires empty { (lines.old.items ≡ []) × (leavers.old.items ≡ []) }
    requires enough { (instances ≤ vec_capacity lines.old) × (instances ≤ vec_capacity leavers.old) }
    ensures { (k : ℕ) (table : TableId) (h : List Occurrence) → HaveSeen instances k table h 0 posts.entry.items
        → HaveParted (record { table = table; size = instances; capacity = k }) h instances lines.new.items
        leavers.new.items }
{
    let mut posts = posts;
    let mut own_events = own_events.into_iter();
    for place in 0..instances {
        let Some(events) = own_events.next() else {
            unreachable!()
        };
        let (line, leaver) = take_post(&mut posts, place + 1).part(events);
        lines.push_reserved(line);
        leavers.push_reserved(leaver);
    }
}

/// Draws the messages of each lane for which there is room, in the order of `rooms`. `left` has room for as many lanes.
pub(crate) fn take_lanes(
    words: &SharedTable,
    leavers: &mut [Leaver],
    rooms: Vec<Room>,
    left: &mut Vec<Left>,
)
    requires ready { (n k : ℕ) × (h : List Occurrence) × AreReady n k words.now.table_id h
        (map room_lane rooms.items) leavers.old × All (IsLaneRoom h n k) rooms.items }
    requires empty { left.old.items ≡ [] }
    requires enough { length rooms.items ≤ vec_capacity left.old }
    ensures { (n k : ℕ) (h : List Occurrence)
        → AreReady n k words.now.table_id h (map room_lane rooms.items) leavers.old → All (IsLaneRoom h n k) rooms.items
        → map left_view left.new.items ≡ map (left_on h) (map room_lane rooms.items) }
{
    for room in rooms {
        let leaver = &mut leavers[room.receiver.place()];
        left.push_reserved(take_all(words, &mut leaver.seat, room));
    }
}
