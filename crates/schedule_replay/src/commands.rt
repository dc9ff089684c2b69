//! A schedule's commands, made by the posts of a board.
ghost use Rattle.std.specs.Prelude.{◌≡◌, ℕ, List, Option, length, replicate, All, IfOk};
ghost use Rattle.board.specs.Views.{BoardView};
ghost use Rattle.board.specs.Meeting.{HaveMet};
ghost use Rattle.schedule.specs.Plans.{IsAmong};
ghost use Rattle.schedule.specs.Meaning.{Run, start};
ghost use Rattle.schedule_replay.specs.Agreement.{ArePosts, Agrees, IsReached, HasActed, HavePerformed, AreFresh};

use crate::steps::act;
use board::{MeetError, Post, meet_all, meet_at};
use chart::InstanceNo;
use schedule::outcomes::ReplayError;
use schedule::{Command, Note, Word};
use std::alloc::Global;

/// All posts of a board meet.
fn meet_them(posts: &mut [Post<'_>])
    requires all { (board : BoardView) × ArePosts board posts.old }
    ensures met { HaveMet posts.old posts.new }
{
    match meet_all(posts) {
        Ok(()) => {}
        Err(MeetError::NotAllPosts) => unreachable!(),
    }
}

/// Makes a command by the post of its instance, and then all posts meet. The answer is `None`, or the word of the
/// command's note. The other posts have done nothing since they met, so the command's own post has seen all that they
/// have.
pub fn perform_one(
    alloc: Global,
    posts: &mut [Post<'_>],
    last: &mut [Option<InstanceNo>],
    command: &Command,
) -> Result<Option<Word>, ReplayError>
    requires among { IsAmong (length posts.old) command.now }
    requires reached { IsReached posts.old last.old }
    ensures { (board : BoardView) (r : Run) → Agrees board r posts.old last.old
        → HasActed board r command.now result posts.new last.new }
{
    let place = command.actor.place();
    let word = act(alloc, &mut posts[place], &mut last[place], command.action)?;
    meet_at(posts, place);
    Ok(word)
}

/// Makes the commands one after another, by posts that have met and that meet again after each command. It returns the
/// notes as they come.
fn perform(
    alloc: Global,
    posts: &mut [Post<'_>],
    last: &mut [Option<InstanceNo>],
    commands: &[Command],
) -> Result<Vec<Note>, ReplayError>
    requires among { All (IsAmong (length posts.old)) commands.now }
    requires fresh { (board : BoardView) × Agrees board start.run posts.old last.old }
    ensures { IfOk result (λ notes. (board : BoardView) → Agrees board start.run posts.old last.old
        → HavePerformed board commands.now posts.new last.new notes.items) }
{
    let mut notes = Vec::new(alloc);
    for command in commands {
        if let Some(word) = perform_one(alloc, posts, last, command)? {
            notes.push(Note {
                line: command.line,
                word,
            })?;
        }
    }
    Ok(notes)
}

/// `None` for each instance: it has received from no instance so far.
fn nobody(alloc: Global, instances: usize) -> Result<Vec<Option<InstanceNo>>, ReplayError>
    ensures { IfOk result (λ last. last.items ≡ replicate instances None) }
{
    let mut last = Vec::with_capacity(alloc, instances)?;
    for _ in 0..instances {
        last.push(None)?;
    }
    Ok(last)
}

/// All new posts of a board meet, and none has received anything. It returns the instance from which each instance
/// received last.
pub fn begin(alloc: Global, posts: &mut [Post<'_>]) -> Result<Vec<Option<InstanceNo>>, ReplayError>
    requires new { (board : BoardView) × AreFresh board posts.old }
    ensures { IfOk result (λ last. (board : BoardView) → AreFresh board posts.old
        → Agrees board start.run posts.new last.items) }
{
    let last = nobody(alloc, posts.len())?;
    meet_them(posts);
    Ok(last)
}

/// Makes the commands one after another, by new posts of a board, and returns their notes as they come. All posts meet
/// before each command, and after the last one.
pub fn perform_all(
    alloc: Global,
    posts: &mut [Post<'_>],
    commands: &[Command],
) -> Result<Vec<Note>, ReplayError>
    requires new { (board : BoardView) × AreFresh board posts.old }
    requires among { All (IsAmong (length posts.old)) commands.now }
    ensures { IfOk result (λ notes. (board : BoardView) → AreFresh board posts.old
        → (last : List (Option ℕ)) × HavePerformed board commands.now posts.new last notes.items) }
{
    let mut last = begin(alloc, posts)?;
    perform(alloc, posts, &mut last, commands)
}
