//! A client asks a server, a logger hears of it from both, and the server gives up if no request comes for long. Each
//! of them is on a thread of its own. The program prints the chart of what they did, with its races.
//!
//! Without a word each of them is a behaviour, and `run` lets them act. With the word `by-hand` each has its post
//! itself. With the word `check` the program does both, and prints only what doesn't depend on the scheduling of
//! threads.
#![tactic(auto)]

mod audits;
mod by_behaviours;
mod by_hand;
mod client;
mod letters;
mod logger;
mod parties;
mod server;
mod showing;

use anyhow::bail;
use showing::{check, show};
use std::convert::AsStr;
use std::env;

fn main(rt: HostRuntime) -> anyhow::Result<()> {
    let words: Vec<String> = env::args(&rt)?.collect(rt.alloc())?;
    match words.as_slice() {
        [_] => show(&rt, &by_behaviours::exchange(&rt)?),
        [_, word] if word.as_str() == "by-hand" => show(&rt, &by_hand::exchange(&rt)?),
        [_, word] if word.as_str() == "check" => {
            check(&rt, &by_behaviours::exchange(&rt)?)?;
            check(&rt, &by_hand::exchange(&rt)?)
        }
        _ => bail!("the words are none, by-hand or check"),
    }
}
