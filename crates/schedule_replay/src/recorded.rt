//! The run that a schedule's accepted commands make.
ghost use Rattle.std.specs.Prelude.{ℕ, ◌≡◌, ◌≤◌, ◌<◌, suc, length, slice_get, Some, All, IfOk, option_map};
ghost use Rattle.board.specs.Views.{BoardView, PostView, line_of};
ghost use Rattle.schedule.specs.Plans.{IsAmong};
ghost use Rattle.schedule.specs.Meaning.{start};
ghost use Rattle.chart.specs.RunSteps.Steps.{step_made};
ghost use Rattle.schedule_replay.specs.Agreement.{Agrees};
ghost use Rattle.schedule_replay.specs.Recorded.{HaveRecorded, IsRecorded};

use crate::commands::{begin, perform_one};
use crate::run::{board_for, posts_of};
use board::Post;
use chart::InstanceNo;
use chart::run_steps::Step;
use schedule::outcomes::ReplayError;
use schedule::{Command, Schedule};
use std::alloc::Global;

/// The number of events on the line of an instance's post.
fn made_by(posts: &[Post<'_>], actor: InstanceNo) -> usize
    requires { actor ≤ length posts.now }
    ensures events { (i : ℕ) (post : PostView) → actor ≡ suc i → slice_get posts.now i ≡ Some post
        → result ≡ length (line_of post) }
    ensures place { (i : ℕ) × (actor ≡ suc i) × (i < length posts.now) }
{
    posts[actor.place()].line().len()
}

/// The step by which an instance made the event after the first `made` ones, if there is one.
fn step_after(posts: &[Post<'_>], actor: InstanceNo, made: usize) -> Option<Step>
    requires { actor ≤ length posts.now }
    ensures { (i : ℕ) (post : PostView) → actor ≡ suc i → slice_get posts.now i ≡ Some post
        → result ≡ option_map (step_made actor) (slice_get (line_of post) made) }
{
    let line = posts[actor.place()].line();
    if made >= line.len() {
        return None;
    }
    Some(Step::of(actor, &line.event(made)))
}

/// Makes the commands one after another, by posts that have met and that meet again after each command. It returns the
/// steps of the commands that made an event.
fn record(
    alloc: Global,
    posts: &mut [Post<'_>],
    last: &mut [Option<InstanceNo>],
    commands: &[Command],
) -> Result<Vec<Step>, ReplayError>
    requires among { All (IsAmong (length posts.old)) commands.now }
    requires fresh { (board : BoardView) × Agrees board start.run posts.old last.old }
    ensures { IfOk result (λ steps. (board : BoardView) → Agrees board start.run posts.old last.old
        → HaveRecorded board commands.now posts.new last.new steps.items) }
{
    let mut steps = Vec::new(alloc);
    for command in commands {
        let made = made_by(posts, command.actor);
        perform_one(alloc, posts, last, command)?;
        if let Some(step) = step_after(posts, command.actor, made) {
            steps.push(step)?;
        }
    }
    Ok(steps)
}

/// The steps of a schedule's accepted sends and receives, in order, as a replay makes them. Closes, the marks of
/// coregions and commands that leave a note make no steps. The steps are a run with the schedule's chart, over lanes of
/// its capacity.
///
/// F6: it fails only if there is no memory.
pub fn recorded_run(alloc: Global, schedule: &Schedule) -> Result<Vec<Step>, ReplayError>
    ensures { IfOk result (λ steps. IsRecorded schedule.now steps.items) }
{
    let mut board = board_for(alloc, schedule)?;
    let mut posts = posts_of(&mut board)?;
    let mut last = begin(alloc, &mut posts)?;
    record(alloc, &mut posts, &mut last, schedule.commands())
}
