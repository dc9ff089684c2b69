//! Room for all that a gathering returns. It is made before the posts meet.
ghost use Rattle.std.specs.Prelude.{◌≡◌, ◌≢◌, ◌+◌, ◌≤◌, ℕ, [], ◌∷◌, ◌++◌, List, length, map, vec_capacity, IfOk, OnOk};
ghost use Rattle.std.specs.Prelude.{IfSome};
ghost use Rattle.chart.specs.declared.history.Occurrence.{Occurrence};
ghost use Rattle.chart.specs.Charts.{LineView};
ghost use Rattle.chart.specs.Histories.{chart_of};
ghost use Rattle.chart.specs.HistoryLines.{history_line, history_lines};
ghost use Rattle.chart.specs.Reports.{AreReportsOf};
ghost use Rattle.board.specs.Views.{PostView};
ghost use Rattle.board.specs.Meeting.{IsJoint, HasPost, IsAt};
ghost use Rattle.board.specs.Gathering.{AreJoint, LaneEnds, lane_to, lanes_of, all_lanes};
ghost use Rattle.board.specs.Parting.{IsAmong, AreOf, IsRoom, HaveRooms, IsForLine, AreForLines};

use crate::meeting::place_of;
use crate::parked::Parked;
use crate::parting::Room;
use crate::post::Post;
use board_table::Lane;
use chart::{Event, Report};
use std::alloc::{AllocError, Global};

/// The post with this number.
pub(crate) fn post_of<'p, 'a>(posts: &'p [Post<'a>], number: usize) -> &'p Post<'a>
    requires number { 1 ≤ number }
    requires has { HasPost posts.now number }
    ensures number { result.now.number ≡ number }
    ensures among { IsAmong posts.now result.now }
{
    let Some(place) = place_of(posts, number) else {
        unreachable!()
    };
    &posts[place]
}

impl Parked {
    /// Room for the messages that wait on the lane from another post. F6: it fails only if there is no memory.
    fn room_from(&self, alloc: Global, sender: &Parked) -> Result<Room, AllocError>
        requires board { sender.now.board ≡ self.now.board }
        requires not_itself { sender.now.number ≢ self.now.number }
        ensures { IfOk result (λ room. (h : List Occurrence) → IsJoint h self.now → IsJoint h sender.now
            → IsRoom h self.now.board.size self.now.board.capacity sender.now.number self.now.number room) }
    {
        let sent = sender.outgoing[self.number.place()].put;
        let taken = self.incoming[sender.number.place()].taken;
        let many = sent.saturating_sub(taken);
        Ok(Room {
            lane: Lane::new(&self.shape, sender.number, self.number),
            sender: sender.number,
            receiver: self.number,
            taken,
            many,
            messages: Vec::with_capacity(alloc, many as usize)?,
        })
    }

    /// Adds the reports of the post's receives to a list. F6: it fails only if there is no memory.
    fn add_reports(&self, alloc: Global, reports: &mut Vec<Report>) -> Result<(), AllocError>
        ensures { OnOk result ((h : List Occurrence) (lines : List LineView) → IsJoint h self.now
            → AreReportsOf (chart_of h) lines reports.old.items
            → AreReportsOf (chart_of h) (lines ++ history_line h self.now.number ∷ []) reports.new.items) }
    {
        self.recorder.add_reports(alloc, reports)
    }

    /// An empty list with room for exactly the events of the post's line. F6: it fails only if there is no memory.
    fn list_for_line(&self, alloc: Global) -> Result<Vec<Event>, AllocError>
        ensures { IfOk result (λ events. (h : List Occurrence) → IsJoint h self.now → IsForLine h self.now.number events) }
    {
        Vec::with_capacity(alloc, self.recorder.line().len())
    }
}

impl<'a> Post<'a> {
    /// Room for the messages that wait on the lane from another post. F6: it fails only if there is no memory.
    fn room_from(&self, alloc: Global, sender: &Post) -> Result<Room, AllocError>
        requires board { sender.now.board ≡ self.now.board }
        requires not_itself { sender.now.number ≢ self.now.number }
        ensures { IfOk result (λ room. (h : List Occurrence) → IsJoint h self.now → IsJoint h sender.now
            → IsRoom h self.now.board.size self.now.board.capacity sender.now.number self.now.number room) }
    {
        self.parked.room_from(alloc, &sender.parked)
    }

    /// Adds the reports of the post's receives to a list. F6: it fails only if there is no memory.
    fn add_reports(&self, alloc: Global, reports: &mut Vec<Report>) -> Result<(), AllocError>
        ensures { OnOk result ((h : List Occurrence) (lines : List LineView) → IsJoint h self.now
            → AreReportsOf (chart_of h) lines reports.old.items
            → AreReportsOf (chart_of h) (lines ++ history_line h self.now.number ∷ []) reports.new.items) }
    {
        self.parked.add_reports(alloc, reports)
    }

    /// An empty list with room for exactly the events of the post's line. F6: it fails only if there is no memory.
    fn list_for_line(&self, alloc: Global) -> Result<Vec<Event>, AllocError>
        ensures { IfOk result (λ events. (h : List Occurrence) → IsJoint h self.now → IsForLine h self.now.number events) }
    {
        self.parked.list_for_line(alloc)
    }
}

/// Makes room for the messages that wait on each lane of a sender, sorted by receiver. F6: it fails only if there is no
/// memory.
fn make_rooms_from(
    alloc: Global,
    posts: &[Post],
    instances: usize,
    sender: usize,
    rooms: &mut Vec<Room>,
) -> Result<(), AllocError>
    requires posts { (k : ℕ) × AreOf instances k posts.now }
    requires sender { (1 ≤ sender) × (sender ≤ instances) }
    ensures { OnOk result ((k : ℕ) (lanes : List LaneEnds) → AreOf instances k posts.now
        → HaveRooms instances k posts.now lanes rooms.old.items
        → HaveRooms instances k posts.now (lanes ++ lanes_of instances sender) rooms.new.items) }
{
    for place in 0..instances {
        if place + 1 != sender {
            let room = post_of(posts, place + 1).room_from(alloc, post_of(posts, sender))?;
            if room.many > 0 {
                rooms.push(room)?;
            }
        }
    }
    Ok(())
}

/// Room for the messages that wait on each lane, sorted by sender and then receiver. F6: it fails only if there is no
/// memory.
pub(crate) fn make_rooms(
    alloc: Global,
    posts: &[Post],
    instances: usize,
) -> Result<Vec<Room>, AllocError>
    requires posts { (k : ℕ) × AreOf instances k posts.now }
    ensures { IfOk result (λ rooms. (k : ℕ) → AreOf instances k posts.now
        → HaveRooms instances k posts.now (all_lanes instances) rooms.items) }
{
    let mut rooms = Vec::new(alloc);
    for place in 0..instances {
        make_rooms_from(alloc, posts, instances, place + 1, &mut rooms)?;
    }
    Ok(rooms)
}

/// The report of each receive of all posts, sorted by instance and index. F6: it fails only if there is no memory.
pub(crate) fn make_reports(
    alloc: Global,
    posts: &[Post],
    instances: usize,
) -> Result<Vec<Report>, AllocError>
    requires posts { (k : ℕ) × AreOf instances k posts.now }
    ensures { IfOk result (λ reports. (h : List Occurrence) → AreJoint h posts.now
        → AreReportsOf (chart_of h) (history_lines instances h) reports.items) }
{
    let mut reports = Vec::new(alloc);
    for place in 0..instances {
        post_of(posts, place + 1).add_reports(alloc, &mut reports)?;
    }
    Ok(reports)
}

/// For each instance, in order of their numbers, a list with room for exactly the events of its line. F6: it fails only
/// if there is no memory.
pub(crate) fn make_own_events(
    alloc: Global,
    posts: &[Post],
    instances: usize,
) -> Result<Vec<Vec<Event>>, AllocError>
    requires posts { (k : ℕ) × AreOf instances k posts.now }
    ensures { IfOk result (λ lists. (h : List Occurrence) → AreJoint h posts.now → AreForLines h instances lists.items) }
{
    let mut lists = Vec::with_capacity(alloc, instances)?;
    for place in 0..instances {
        let events = post_of(posts, place + 1).list_for_line(alloc)?;
        lists.push_reserved(events);
    }
    Ok(lists)
}
