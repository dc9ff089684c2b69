//! Measures what a message costs over a board's lanes, and the same by hand over the kit's rings. With the word `round`
//! and eight more words it prints the times of single rounds over a board or over rings. Without words it only prints
//! which messages would pass, and what their reports list.
#![tactic(auto)]

mod ends;
mod plan;
mod rings;
mod rounds;

use ends::Seen;
use plan::{Outcome, Peer, Plan, Traffic};
use rounds::run_round;
use std::convert::AsStr;
use std::env;
use std::rt::Env;
use std::thread::Threads;
use std::time::Clock;

/// Rounds of 4,000 messages on one thread: their traffic, instances and slots.
const ROUNDS: [(Traffic, usize, usize); 5] = [
    (Traffic::Burst, 32, 8),
    (Traffic::Batch, 2, 40),
    (Traffic::OneWay, 2, 64),
    (Traffic::PingPong, 2, 1),
    (Traffic::AllToAll, 4, 8),
];

/// Passes a round on one thread. It prints how many messages came and what their reports list, which only depends on
/// the traffic.
fn print_report<R: Threads + Sync + Clock + AllocGlobal + Print>(
    rt: &R,
    peer: Peer,
    plan: &Plan,
) -> anyhow::Result<()> {
    let Outcome { messages, seen, .. } = run_round(rt, rt.alloc(), peer, plan)?;
    let Plan {
        traffic,
        instances,
        capacity,
        ..
    } = *plan;
    let Seen { listed, firsts } = seen;
    println!(rt; "{traffic},{peer},{instances},{capacity},{messages},{listed},{firsts}")?;
    Ok(())
}

/// The same for each of the rounds.
fn print_reports<R: Threads + Sync + Clock + AllocGlobal + Print>(
    rt: &R,
    peer: Peer,
) -> anyhow::Result<()> {
    for (traffic, instances, capacity) in ROUNDS {
        let plan = Plan {
            traffic,
            on_threads: false,
            instances,
            capacity,
            body: 0,
            messages: 4000,
        };
        print_report(rt, peer, &plan)?;
    }
    Ok(())
}

/// The request in the words after the program's name.
#[derive(Clone, Copy)]
enum Asked {
    /// To print what reports list.
    Reports,
    /// To run this number of rounds of a plan.
    Rounds {
        peer: Peer,
        plan: Plan,
        rounds: usize,
    },
}

fn peer_in(word: &str) -> Option<Peer> {
    if word == "board" {
        Some(Peer::Board)
    } else if word == "rings" {
        Some(Peer::Rings)
    } else {
        None
    }
}

fn traffic_in(word: &str) -> Option<Traffic> {
    if word == "burst" {
        Some(Traffic::Burst)
    } else if word == "batch" {
        Some(Traffic::Batch)
    } else if word == "one_way" {
        Some(Traffic::OneWay)
    } else if word == "ping_pong" {
        Some(Traffic::PingPong)
    } else if word == "all_to_all" {
        Some(Traffic::AllToAll)
    } else {
        None
    }
}

/// The numbers in these words.
fn numbers_in(words: &[String]) -> anyhow::Result<[usize; 5]> {
    let mut numbers = [0; 5];
    for (number, word) in numbers.iter_mut().zip(words) {
        *number = word.as_str().parse()?;
    }
    Ok(numbers)
}

/// The request for rounds in these words: `PEER TRAFFIC threads|turns INSTANCES SLOTS BODY MESSAGES ROUNDS`.
fn rounds_in(words: &[String]) -> anyhow::Result<Asked> {
    let [peer, traffic, how, numbers @ ..] = words else {
        anyhow::bail!("a round has eight words");
    };
    if numbers.len() != 5 {
        anyhow::bail!("a round has eight words");
    }
    let (Some(peer), Some(traffic)) = (peer_in(peer.as_str()), traffic_in(traffic.as_str())) else {
        anyhow::bail!("board or rings, and burst, batch, one_way, ping_pong or all_to_all");
    };
    let [instances, capacity, body, messages, rounds] = numbers_in(numbers)?;
    let plan = Plan {
        traffic,
        on_threads: how.as_str() == "threads",
        instances,
        capacity,
        body,
        messages,
    };
    Ok(Asked::Rounds { peer, plan, rounds })
}

/// The request in the program's words.
fn read_words<R: Env + AllocGlobal>(rt: &R) -> anyhow::Result<Asked> {
    let words: Vec<String> = env::args(rt)?.collect(rt.alloc())?;
    match words.as_slice() {
        [_, word, rest @ ..] if word.as_str() == "round" => rounds_in(rest),
        _ => Ok(Asked::Reports),
    }
}

/// Runs this number of rounds. For each it prints the nanoseconds, how many messages came, and what their reports list.
fn print_rounds<R: Threads + Sync + Clock + AllocGlobal + Print>(
    rt: &R,
    peer: Peer,
    plan: &Plan,
    rounds: usize,
) -> anyhow::Result<()> {
    for _ in 0..rounds {
        let Outcome {
            nanoseconds,
            messages,
            seen,
        } = run_round(rt, rt.alloc(), peer, plan)?;
        let Seen { listed, firsts } = seen;
        println!(rt; "{nanoseconds} {messages} {listed} {firsts}")?;
    }
    Ok(())
}

fn main(rt: HostRuntime) -> anyhow::Result<()> {
    match read_words(&rt)? {
        Asked::Reports => {
            println!(rt; "traffic,peer,instances,capacity,messages,listed,firsts")?;
            print_reports(&rt, Peer::Board)?;
            print_reports(&rt, Peer::Rings)
        }
        Asked::Rounds { peer, plan, rounds } => print_rounds(&rt, peer, &plan, rounds),
    }
}
