//! Behaviours that drive their instances, each in a thread.
ghost use Rattle.std.specs.Prelude.{◌≡◌, ℕ, ◌<◌, IfOk, length, slice_index_or};
ghost use Rattle.instances.specs.Driving.{meaning, IsRunOfPost};

use crate::driver::drive;
use crate::end::End;
use crate::gate::Gate;
use crate::trace::Trace;
use behaviour::Behaviour;
use board::Post;
use mailbox::Mailbox;
use std::alloc::{AllocError, Global};
use std::thread;
use std::thread::Threads;

/// Lets each behaviour drive its post, each in a thread, or one after the other if no thread can be made. It returns
/// the result of [`drive`] for each, in their order. F6: a growth was refused, and some may not have been driven.
pub(crate) fn drive_all<'a, R: Threads + Sync, G: Gate + Sync>(
    rt: &R,
    alloc: Global,
    jobs: Vec<(Post<'a>, Box<dyn Behaviour + Send>)>,
    turns: u32,
    gate: &G,
) -> Result<Vec<(Post<'a>, Trace, End)>, AllocError>
    ensures len { IfOk result (λ done. length done.items ≡ length jobs.entry.items) }
    ensures each { IfOk result (λ done. (k : ℕ) (d : _) (e : _) → k < length jobs.entry.items →
        let job = slice_index_or jobs.entry.items k d in
        let run = slice_index_or done.items k e in
        IsRunOfPost (meaning (Behaviour-box job.1).act (Behaviour-box job.1).after)
        turns job.1.value job.0 run.1 run.2 run.0) }
{
    let drive_one = move |job| -> (_, Trace, End)
        ensures { IsRunOfPost (meaning (Behaviour-box job.entry.1).act (Behaviour-box job.entry.1).after)
            turns job.entry.1.value job.entry.0 result.1 result.2 result.0 }
    {
        let (post, behaviour) = job;
        drive_boxed(alloc, post, behaviour, turns, gate)
    };
    thread::map_vec(rt, jobs, &drive_one)
}

/// Lets a behaviour that is given away drive a post.
fn drive_boxed<'a, G: Gate>(
    alloc: Global,
    post: Post<'a>,
    mut behaviour: Box<dyn Behaviour + Send>,
    turns: u32,
    gate: &G,
) -> (Post<'a>, Trace, End)
    ensures { IsRunOfPost (meaning (Behaviour-box behaviour).act (Behaviour-box behaviour).after)
        turns behaviour.value post.entry result.1 result.2 result.0 }
{
    let mailbox = Mailbox::new(post);
    let (mailbox, trace, end) = drive(alloc, mailbox, behaviour.as_mut(), turns, gate);
    (mailbox.into_post(), trace, end)
}
