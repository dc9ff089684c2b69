//! The code of `docs/guide/library.md`, which explains it piece by piece.
//!
//! Without a word two messages cross, and a mailbox looks for a message. With the word `threads` posts are on threads,
//! and with the word `schedule` a schedule runs on threads.
#![tactic(auto)]

mod crossing;
mod gathering;
mod looking;
mod passing;
mod schedules;
mod threads;

use anyhow::bail;
use std::convert::AsStr;
use std::env;

fn main(rt: HostRuntime) -> anyhow::Result<()> {
    let words: Vec<String> = env::args(&rt)?.collect(rt.alloc())?;
    match words.as_slice() {
        [_] => {
            crossing::cross(&rt, rt.alloc())?;
            looking::look_twice(&rt, rt.alloc())
        }
        [_, word] if word.as_str() == "threads" => threads::act_on_threads(&rt, rt.alloc()),
        [_, word] if word.as_str() == "schedule" => schedules::run_schedule(
            &rt,
            b"instances a b\ncapacity 1\na send b x\nb receive a\n",
        ),
        _ => bail!("the words are none, threads or schedule"),
    }
}
