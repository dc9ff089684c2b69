//! The whole replay.
ghost use Rattle.std.specs.Prelude.{◌≡◌, false, length, All, IfOk};
ghost use Rattle.board.specs.Views.{BoardView};
ghost use Rattle.board.specs.Boards.{IsNewBoard, AreNewPosts};
ghost use Rattle.board.specs.Gathering.{IsWhole};
ghost use Rattle.schedule.specs.Outcomes.Outcomes.{IsOutcome};
ghost use Rattle.schedule.specs.Plans.{IsAmong};
ghost use Rattle.schedule_replay.specs.Agreement.{ArePosts, AreFresh, HasCome};

use crate::commands::perform_all;
use board::{Board, BoardError, GatherCause, Gathered, Post, PostsError, gather};
use schedule::outcomes::{Outcome, ReplayError, put_by_line};
use schedule::{Command, Note, Schedule};
use std::alloc::Global;

/// A board for the schedule's instances, with lanes of its capacity.
pub fn board_for(alloc: Global, schedule: &Schedule) -> Result<Board, ReplayError>
    ensures { IfOk result (IsNewBoard (length schedule.now.names) schedule.now.capacity) }
{
    let instances = schedule.names().len();
    match Board::new(alloc, instances, schedule.capacity().slots()) {
        Ok(board) => Ok(board),
        Err(BoardError::Memory) => Err(ReplayError::Memory),
        Err(BoardError::Instances | BoardError::Capacity) => unreachable!(),
    }
}

/// All posts of a new board.
pub fn posts_of(board: &mut Board) -> Result<Vec<Post<'_>>, ReplayError>
    requires { board.old.asked ≡ false }
    ensures { IfOk result (λ posts. AreNewPosts board.old.board posts.items) }
{
    match board.posts() {
        Ok(posts) => Ok(posts),
        Err(PostsError::Memory) => Err(ReplayError::Memory),
        Err(PostsError::PostsTaken) => unreachable!(),
    }
}

/// The outcome of a whole board, of which these are all posts.
fn gather_all(alloc: Global, posts: Vec<Post<'_>>) -> Result<Gathered, ReplayError>
    requires all { (board : BoardView) × ArePosts board posts.items }
    ensures { IfOk result (IsWhole posts.entry.items) }
{
    match gather(alloc, posts) {
        Ok(gathered) => Ok(gathered),
        Err(error) => match error.cause {
            GatherCause::Memory => Err(ReplayError::Memory),
            GatherCause::NotAllPosts => unreachable!(),
        },
    }
}

/// The result of the schedule's commands, made by new posts of a board: the outcome of the board, and the notes by
/// line.
fn play(
    alloc: Global,
    posts: Vec<Post<'_>>,
    commands: &[Command],
) -> Result<(Gathered, Vec<Note>), ReplayError>
    requires new { (board : BoardView) × AreFresh board posts.items }
    requires among { All (IsAmong (length posts.items)) commands.now }
    ensures { IfOk result (λ played. (board : BoardView) → AreFresh board posts.entry.items
        → HasCome board commands.now played.0 played.1.items) }
{
    let mut posts = posts;
    let mut notes = perform_all(alloc, &mut posts, commands)?;
    put_by_line(&mut notes)?;
    Ok((gather_all(alloc, posts)?, notes))
}

/// Replays a schedule's commands one after another, with all posts met before each one, and returns the outcome. F6: a
/// growth was refused.
pub fn replay<'a>(alloc: Global, schedule: &'a Schedule) -> Result<Outcome<'a>, ReplayError>
    ensures { IfOk result (IsOutcome schedule.now) }
{
    let mut board = board_for(alloc, schedule)?;
    let posts = posts_of(&mut board)?;
    let (gathered, notes) = play(alloc, posts, schedule.commands())?;
    let Gathered { chart, reports, .. } = gathered;
    Ok(Outcome::new(schedule.names(), chart, reports, notes))
}
