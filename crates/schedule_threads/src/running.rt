//! Runs of schedules.
ghost use Rattle.std.specs.Prelude.{◌≡◌, IfOk, IfErr, length, false};
ghost use Rattle.board.specs.Boards.{IsNewBoard, AreNewPosts};
ghost use Rattle.instances.specs.Driving.{meaning};
ghost use Rattle.instances.specs.Whole.{DrivenBy, IsUnrun};
ghost use Rattle.schedule_threads.specs.OwnBoards.{AreRunsOf, AreFitFor, AreInvalidFor};
ghost use Rattle.schedule_threads.specs.RunOutcomes.{IsRunOf};

use behaviour::Behaviour;
use board::{Board, BoardError, Post, PostsError};
use instances::{MAX_TURNS, Open, Run, RunError, run};
use schedule::Schedule;
use std::alloc::{AllocError, Global};
use std::thread::Threads;

/// A board for the schedule's instances, with lanes of its capacity. A board refuses no schedule's number of instances
/// or capacity.
fn board_for(alloc: Global, schedule: &Schedule) -> Result<Board, AllocError>
    ensures { IfOk result (IsNewBoard (length schedule.now.names) schedule.now.capacity) }
{
    let instances = schedule.names().len();
    match Board::new(alloc, instances, schedule.capacity().slots()) {
        Ok(board) => Ok(board),
        Err(BoardError::Memory) => Err(AllocError),
        Err(BoardError::Instances | BoardError::Capacity) => unreachable!(),
    }
}

/// All posts of a new board.
fn posts_of(board: &mut Board) -> Result<Vec<Post<'_>>, AllocError>
    requires { board.old.asked ≡ false }
    ensures { IfOk result (λ posts. AreNewPosts board.old.board posts.items) }
{
    match board.posts() {
        Ok(posts) => Ok(posts),
        Err(PostsError::Memory) => Err(AllocError),
        Err(PostsError::PostsTaken) => unreachable!(),
    }
}

/// Runs a schedule's instances on a board of their own, with lanes of its capacity. Each behaviour drives the instance
/// at its place, in a thread. The instances run one after another if no thread can be made. An instance has at most
/// this many turns.
///
/// F25: there are more or fewer behaviours than instances, or the number of turns is 0 or more than
/// [`instances::MAX_TURNS`]. Then nothing was started, and the behaviours come back. F6: a growth was refused, of the
/// board or of its run.
#[tactic(auto, using(crate::proofs::Boards::are_of_one_board))]
pub fn run_schedule<R: Threads + Sync>(
    rt: &R,
    alloc: Global,
    schedule: &Schedule,
    behaviours: Vec<Box<dyn Behaviour + Send>>,
    turns: u32,
) -> Result<Run, RunError<(), Vec<Box<dyn Behaviour + Send>>>>
    ensures of { IfOk result (IsRunOf schedule.now) }
    ensures runs { IfOk result (AreRunsOf
        (DrivenBy (λ b. meaning (Behaviour-box b).act (Behaviour-box b).after) (λ b. b.value) turns behaviours.items)
        schedule.now) }
    ensures fit { IfOk result (λ run. AreFitFor schedule.now (length behaviours.items) turns) }
    ensures err { IfErr result
        (IsUnrun tt behaviours (AreFitFor schedule.now (length behaviours.items) turns)
        (AreInvalidFor schedule.now (length behaviours.items) turns)) }
{
    if behaviours.len() != schedule.names().len() || turns == 0 || MAX_TURNS < turns {
        return Err(RunError::InvalidInput((), behaviours));
    }
    let mut board = match board_for(alloc, schedule) {
        Ok(board) => board,
        Err(AllocError) => return Err(RunError::Memory),
    };
    let posts = match posts_of(&mut board) {
        Ok(posts) => posts,
        Err(AllocError) => return Err(RunError::Memory),
    };
    match run(rt, posts, behaviours, turns, &Open) {
        Ok(run) => Ok(run),
        Err(RunError::InvalidInput(..)) => unreachable!(),
        Err(RunError::Memory) => Err(RunError::Memory),
    }
}
