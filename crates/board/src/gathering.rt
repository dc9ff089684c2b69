//! How a whole board is gathered.

ghost use Rattle.std.specs.Prelude.{◌≡◌, ◌≤◌, IfOk, length};
ghost use Rattle.chart.specs.declared.history.Occurrence.{Occurrence};
ghost use Rattle.chart.specs.declared.instance.TheConstants.{MAX_INSTANCES};
ghost use Rattle.chart.specs.Charts.{HasPartners, IsNumbered};
ghost use Rattle.board.specs.Meeting.{AreOfOneBoard, AreAll};
ghost use Rattle.board.specs.Gathering.{size_of, IsWhole, Gathers};
ghost use Rattle.board.specs.Provisions.{IsProvision};

use crate::closed_lanes::find_closed;
use crate::error::GatherCause;
use crate::meeting::{are_all, meet};
use crate::parting::{Leaver, Room, part_all, take_lanes};
use crate::post::Post;
use crate::reserving::{make_own_events, make_reports, make_rooms};
use board_table::SharedTable;
use chart::{Chart, Event, InstanceNo, Line, Message, Report};
use std::alloc::{AllocError, Global};

/// What the gathering of a whole board returns.
#[derive(Drop)]
pub struct Gathered {
    pub chart: Chart,
    /// The report of each receive, sorted by instance and index.
    pub reports: Vec<Report>,
    /// The lanes on which messages wait, sorted by sender and then receiver.
    pub left: Vec<Left>,
    /// The closed lanes, sorted by sender and then receiver.
    pub closed: Vec<ClosedLane>,
}

/// A lane that was closed.
#[derive(Clone, Copy, Debug, PartialEq, Eq)]
pub struct ClosedLane {
    pub sender: InstanceNo,
    pub receiver: InstanceNo,
}

/// A lane on which messages wait.
#[derive(Debug, Drop)]
pub struct Left {
    pub sender: InstanceNo,
    pub receiver: InstanceNo,
    /// In the order in which they were sent.
    pub messages: Vec<Message>,
}

/// A board isn't gathered: its posts come back as they were.
#[derive(Drop)]
pub struct GatherError<'a> {
    pub posts: Vec<Post<'a>>,
    pub cause: GatherCause,
}

/// What a gathering makes before the posts meet: the reports, the closed lanes, and room for the rest.
#[derive(Drop)]
pub(crate) struct Provision {
    /// For each instance, in order of their numbers, a list with room for the events of its line.
    pub own_events: Vec<Vec<Event>>,
    pub lines: Vec<Line>,
    /// The report of each receive, sorted by instance and index.
    pub reports: Vec<Report>,
    pub leavers: Vec<Leaver>,
    pub rooms: Vec<Room>,
    pub left: Vec<Left>,
    pub closed: Vec<ClosedLane>,
}

impl<'a> Post<'a> {
    /// The words of its board.
    fn words(&self) -> &'a SharedTable
        ensures { result.now.table_id ≡ self.now.board.table }
    {
        self.words
    }
}

/// Makes the reports and the list of closed lanes, and room for the rest of what a gathering returns. F6: it fails only
/// if there is no memory.
fn make_provision(alloc: Global, posts: &[Post]) -> Result<Provision, AllocError>
    requires board { AreOfOneBoard posts.now }
    requires all { AreAll posts.now }
    ensures { IfOk result (IsProvision (size_of posts.now) posts.now) }
{
    let instances = posts[0].board_size();
    let reports = make_reports(alloc, posts, instances)?;
    let rooms = make_rooms(alloc, posts, instances)?;
    let closed = find_closed(alloc, posts, instances)?;
    let own_events = make_own_events(alloc, posts, instances)?;
    Ok(Provision {
        own_events,
        lines: Vec::with_capacity(alloc, instances)?,
        reports,
        leavers: Vec::with_capacity(alloc, instances)?,
        left: Vec::with_capacity(alloc, rooms.len())?,
        rooms,
        closed,
    })
}

/// The chart of these lines, which are those of a history.
fn whole_chart(lines: Vec<Line>) -> Chart
    requires numbered { IsNumbered lines.items }
    requires several { (2 ≤ length lines.items) × (length lines.items ≤ MAX_INSTANCES) }
    requires partners { HasPartners (length lines.items) lines.items }
    ensures { result ≡ lines.items }
{
    match Chart::new(lines) {
        Ok(chart) => chart,
        Err(_) => unreachable!(),
    }
}

/// Gathers all posts of a board, with the room made for them. It takes no memory.
fn gather_all(posts: Vec<Post>, provision: Provision) -> Gathered
    requires board { AreOfOneBoard posts.items }
    requires all { AreAll posts.items }
    requires provision { IsProvision (size_of posts.items) posts.items provision }
    ensures { IsWhole posts.entry.items result }
{
    let Provision {
        own_events,
        lines,
        reports,
        leavers,
        rooms,
        left,
        closed,
    } = provision;
    let mut posts = posts;
    let mut lines = lines;
    let mut leavers = leavers;
    let mut left = left;
    let instances = posts[0].board_size();
    let words = posts[0].words();
    meet(&mut posts);
    part_all(posts, instances, own_events, &mut lines, &mut leavers);
    take_lanes(words, &mut leavers, rooms, &mut left);
    Gathered {
        chart: whole_chart(lines),
        reports,
        left,
        closed,
    }
}

/// Gathers a whole board. It returns the chart of one history, the report of each receive, the messages that wait on
/// each lane, and the closed lanes. This history begins with all that the posts had seen, and has just their own
/// events.
///
/// The posts may come in any order. The first of F15 and F6 that applies refuses it, and then they come back as they
/// were: all memory is there before the first of them meets another.
pub fn gather<'a>(alloc: Global, posts: Vec<Post<'a>>) -> Result<Gathered, GatherError<'a>>
    requires board { AreOfOneBoard posts.items }
    ensures { Gathers posts.entry.items result }
{
    if !are_all(posts.as_slice()) {
        return Err(GatherError {
            posts,
            cause: GatherCause::NotAllPosts,
        });
    }
    let provision = match make_provision(alloc, posts.as_slice()) {
        Ok(provision) => provision,
        Err(AllocError) => {
            return Err(GatherError {
                posts,
                cause: GatherCause::Memory,
            });
        }
    };
    Ok(gather_all(posts, provision))
}
