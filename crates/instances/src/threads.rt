//! Runs of whole boards.
ghost use Rattle.std.specs.Prelude.{◌≡◌, IfOk, IfErr, length, map, true, false};
ghost use Rattle.std.specs.List.{zip};
ghost use Rattle.board.specs.Meeting.{AreOfOneBoard};
ghost use Rattle.instances.specs.Driving.{meaning};
ghost use Rattle.instances.specs.Whole.{IsFit, IsInvalidInput, DrivenBy, AreRuns, IsGathered, IsUnrun};

use crate::end::End;
use crate::gate::Gate;
use crate::jobs::drive_all;
use crate::outcome::{Run, RunError};
use crate::trace::Trace;
use behaviour::Behaviour;
use board::{GatherCause, Post, are_all, gather};
use std::alloc::{AllocError, Global};
use std::thread::Threads;

/// The most turns of a run.
pub const MAX_TURNS: u32 = 1_000_000;

const _: () = prove!(MAX_TURNS == 1_000_000);

/// Whether these posts, this many behaviours and this many turns make a run.
fn is_fit(posts: &[Post], behaviours: usize, turns: u32) -> bool
    ensures yes { result ≡ true → IsFit posts.now behaviours turns }
    ensures no { result ≡ false → IsInvalidInput posts.now behaviours turns }
{
    are_all(posts) && behaviours == posts.len() && 1 <= turns && turns <= MAX_TURNS
}

/// The pairs of elements at the same place, of two lists of one length.
fn pairs<A: Drop, B: Drop>(
    alloc: Global,
    first: Vec<A>,
    second: Vec<B>,
) -> Result<Vec<(A, B)>, AllocError>
    requires { length second.items ≡ length first.items }
    ensures { IfOk result (λ both. both.items ≡ zip first.items second.items) }
{
    let mut both = Vec::new(alloc);
    for pair in first.into_iter().zip(second) {
        both.push(pair)?;
    }
    Ok(both)
}

/// The posts, the traces and the ends of these runs.
fn taken_apart<A: Drop>(
    alloc: Global,
    runs: Vec<(A, Trace, End)>,
) -> Result<(Vec<A>, Vec<Trace>, Vec<End>), AllocError>
    ensures posts { IfOk result (λ parts. parts.0.items ≡ map (λ run. run.0) runs.items) }
    ensures traces { IfOk result (λ parts. parts.1.items ≡ map (λ run. run.1) runs.items) }
    ensures ends { IfOk result (λ parts. parts.2.items ≡ map (λ run. run.2) runs.items) }
{
    let mut posts = Vec::new(alloc);
    let mut traces = Vec::new(alloc);
    let mut ends = Vec::new(alloc);
    for (post, trace, end) in runs {
        posts.push(post)?;
        traces.push(trace)?;
        ends.push(end)?;
    }
    Ok((posts, traces, ends))
}

/// Runs a board, which only a lack of memory can prevent.
fn run_fit<'a, R: Threads + Sync, G: Gate + Sync>(
    rt: &R,
    posts: Vec<Post<'a>>,
    behaviours: Vec<Box<dyn Behaviour + Send>>,
    turns: u32,
    gate: &G,
) -> Result<Run, AllocError>
    requires board { AreOfOneBoard posts.items }
    requires fit { IsFit posts.items (length behaviours.items) turns }
    ensures { IfOk result (AreRuns
        (DrivenBy (λ b. meaning (Behaviour-box b).act (Behaviour-box b).after) (λ b. b.value) turns behaviours.items)
        posts.entry.items) }
{
    let alloc = *posts.allocator();
    let jobs = pairs(alloc, posts, behaviours)?;
    let runs = drive_all(rt, alloc, jobs, turns, gate)?;
    let (posts, traces, ends) = taken_apart(alloc, runs)?;
    match gather(alloc, posts) {
        Ok(gathered) => Ok(Run {
            gathered,
            traces,
            ends,
        }),
        Err(error) => match error.cause {
            GatherCause::Memory => Err(AllocError),
            GatherCause::NotAllPosts => unreachable!(),
        },
    }
}

/// Runs a board: lets each behaviour drive the post at its place for at most `turns` turns, and then gathers the board.
/// Each behaviour runs in a thread, or one after the other if no thread can be made.
///
/// F25 refuses it before anything is started, and then posts and behaviours come back. After F6 they are gone.
pub fn run<'a, R: Threads + Sync, G: Gate + Sync>(
    rt: &R,
    posts: Vec<Post<'a>>,
    behaviours: Vec<Box<dyn Behaviour + Send>>,
    turns: u32,
    gate: &G,
) -> Result<Run, RunError<Vec<Post<'a>>, Vec<Box<dyn Behaviour + Send>>>>
    requires board { AreOfOneBoard posts.items }
    ensures ok { IfOk result (AreRuns
        (DrivenBy (λ b. meaning (Behaviour-box b).act (Behaviour-box b).after) (λ b. b.value) turns behaviours.items)
        posts.entry.items) }
    ensures gathered { IfOk result IsGathered }
    ensures fit { IfOk result (λ run. IsFit posts.entry.items (length behaviours.items) turns) }
    ensures err { let many = length behaviours.items in
        IfErr result (IsUnrun posts.entry behaviours
        (IsFit posts.entry.items many turns) (IsInvalidInput posts.entry.items many turns)) }
{
    if !is_fit(posts.as_slice(), behaviours.len(), turns) {
        return Err(RunError::InvalidInput(posts, behaviours));
    }
    match run_fit(rt, posts, behaviours, turns, gate) {
        Ok(run) => Ok(run),
        Err(AllocError) => Err(RunError::Memory),
    }
}
