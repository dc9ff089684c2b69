//! Tests of gathered boards of worked schedules, with each growth of memory refused in turn. Each refused call is made
//! once more, and then returns its full answer.
ghost use Rattle.std.specs.Prelude.{◌≡◌};
ghost use Rattle.board.specs.Meeting.{AreOfOneBoard};
ghost use Rattle.chart.specs.Reports.{AreReports};

use crate::calls::{are, every_growth_was_refused, holds, instance, is_done, message, succeeds};
use crate::replays::schedule_of;
use crate::schedules::{Deed, WORKED, Worked};
use board::{Board, GatherCause, GatherError, Gathered, Post, SendError, gather};
use chart::Names;
use msc_text::{add_chart, add_races};
use std::alloc::Global;
use std::process::Abort;
use std::test::Fail;
use texts::{StreamOut, TextBuffer};

/// Sends a message with this name, and once more if memory was refused.
fn sends(rt: &impl Abort, alloc: Global, post: &mut Post, letter: u8, to: usize)
    ensures { post.new.board ≡ post.old.board }
{
    let to = instance(rt, to);
    if let Err((back, error)) = post.send(to, message(rt, alloc, letter)) {
        holds(rt, "memory was refused", error == SendError::Memory);
        succeeds(rt, "it is sent", post.send(to, back));
    }
}

/// Receives a message, at the second attempt if memory was refused.
fn gets(rt: &impl Abort, post: &mut Post, from: usize)
    ensures { post.new.board ≡ post.old.board }
{
    let from = instance(rt, from);
    if !is_done(post.receive(from)) {
        succeeds(rt, "a message", post.receive(from));
    }
}

/// The post with this number makes a deed.
fn makes(rt: &impl Abort, alloc: Global, posts: &mut [Post], by: usize, deed: &Deed)
    requires { AreOfOneBoard posts.old }
    ensures { AreOfOneBoard posts.new }
{
    assert!(rt; 1 <= by && by <= posts.len());
    match *deed {
        Deed::Sends(letter, to) => sends(rt, alloc, &mut posts[by - 1], letter, to),
        Deed::Gets(_, from, _) | Deed::GetsAny(_, from, _) => gets(rt, &mut posts[by - 1], from),
    }
}

/// The posts make these deeds.
fn make_all(rt: &impl Abort, alloc: Global, posts: &mut [Post], deeds: &[(usize, Deed)])
    requires { AreOfOneBoard posts.old }
    ensures { AreOfOneBoard posts.new }
{
    for (by, deed) in deeds {
        makes(rt, alloc, posts, *by, deed);
    }
}

/// The result of gathering the board of these posts.
fn gathers(rt: &impl Abort, alloc: Global, posts: Vec<Post>) -> Gathered
    requires { AreOfOneBoard posts.items }
    ensures { AreReports result.chart result.reports.items }
{
    match gather(alloc, posts) {
        Ok(gathered) => gathered,
        Err(GatherError { posts: _, cause: _ }) => panic!(rt; "a gathered board"),
    }
}

/// The same, once more if memory was refused. The posts then came back as they were.
fn gathers_again(rt: &impl Abort, alloc: Global, posts: Vec<Post>) -> Gathered
    requires { AreOfOneBoard posts.items }
    ensures { AreReports result.chart result.reports.items }
{
    match gather(alloc, posts) {
        Ok(gathered) => gathered,
        Err(GatherError { posts, cause }) => {
            holds(rt, "memory was refused", cause == GatherCause::Memory);
            gathers(rt, alloc, posts)
        }
    }
}

/// Puts the text of the board's chart and of its races there, in full.
fn puts_text(rt: &impl Abort, names: &Names, gathered: &Gathered, out: &mut StreamOut<&mut [u8]>)
    requires { AreReports gathered.now.chart gathered.now.reports.items }
{
    assert!(rt; names.len() == gathered.chart.lines().len());
    let mut written = TextBuffer::new(out);
    let chart = add_chart(&mut written, names, &gathered.chart);
    holds(rt, "the chart's text", chart.is_ok());
    let races = add_races(&mut written, names, gathered.reports.as_slice());
    holds(rt, "the races' text", races.is_ok());
    holds(rt, "the end", written.finish().is_ok());
}

/// Asserts that the board's chart and its races have this text, which is written without memory.
fn has_text(rt: &impl Abort, names: &Names, gathered: &Gathered, text: &[u8])
    requires { AreReports gathered.now.chart gathered.now.reports.items }
{
    let mut place = [0; 512];
    assert!(rt; text.len() <= 512);
    let mut out = StreamOut::new(&mut place[..text.len()]);
    puts_text(rt, names, gathered, &mut out);
    drop(out);
    holds(rt, "the text", place.starts_with(text));
}

/// Asserts that the deeds of a schedule result in its text, unless memory was refused for the board or its posts.
fn comes_to(rt: &impl Abort, alloc: Global, names: &Names, worked: &Worked) {
    if let Ok(mut board) = Board::new(alloc, worked.instances, worked.capacity) {
        if let Ok(mut posts) = board.posts() {
            make_all(rt, alloc, posts.as_mut_slice(), worked.deeds);
            let gathered = gathers_again(rt, alloc, posts);
            are(rt, "left messages", gathered.left.len(), 0);
            has_text(rt, names, &gathered, worked.written);
        }
    }
}

#[test]
fn refused_growths_of_gathered_boards(rt: HostRuntime) -> Result<(), Fail> {
    for worked in &WORKED {
        let schedule = schedule_of(&rt, rt.alloc(), worked.text);
        comes_to(&rt, rt.alloc(), schedule.names(), worked);
    }
    every_growth_was_refused(rt.alloc())
}
