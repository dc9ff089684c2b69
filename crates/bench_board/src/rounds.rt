//! Rounds of messages, which `bench/pass_on_boards` times: over a board, or over rings by hand. The peer in C has the
//! same rounds, in `bench/peers/rounds.c`.
use crate::ends::{End, Seen, Stopped, body_of, hand_ends, post_ends};
use crate::plan::{Outcome, Peer, Plan, Traffic};
use board::Board;
use std::alloc::{AllocError, Global};
use std::sync::atomic::{AtomicU64, Ordering};
use std::thread;
use std::thread::Threads;
use std::time::{Clock, Instant};

/// The messages between an instance and another one: how many are to pass, and how many have passed.
#[derive(Clone, Copy)]
struct Passed {
    to_send: usize,
    sent: usize,
    to_get: usize,
    got: usize,
}

/// An instance, and the messages that it has passed.
#[derive(Drop)]
struct Player<E> {
    end: E,
    alloc: Global,
    body: usize,
    /// Whether it only sends replies. The first instance sends once it has the reply to its last message.
    answers: bool,
    is_first: bool,
    lanes: Vec<Passed>,
    left: usize,
    seen: Seen,
}

/// The messages between an instance and each other one.
fn lanes_of(alloc: Global, plan: &Plan, own: usize) -> Result<Vec<Passed>, AllocError> {
    let mut lanes = Vec::new(alloc);
    for other in 0..plan.instances {
        lanes.push(Passed {
            to_send: plan.share(own, other),
            sent: 0,
            to_get: plan.share(other, own),
            got: 0,
        })?;
    }
    Ok(lanes)
}

/// An instance that hasn't passed any messages yet.
fn new_player<E>(alloc: Global, plan: &Plan, own: usize, end: E, lanes: Vec<Passed>) -> Player<E> {
    let mut left = 0usize;
    for lane in &lanes {
        left = left
            .saturating_add(lane.to_send)
            .saturating_add(lane.to_get);
    }
    Player {
        end,
        alloc,
        body: plan.body,
        answers: plan.traffic == Traffic::PingPong,
        is_first: own == 0,
        lanes,
        left,
        seen: Seen {
            listed: 0,
            firsts: 0,
        },
    }
}

/// The instances of a round, in their order.
fn make_players<E: Drop>(
    alloc: Global,
    plan: &Plan,
    ends: Vec<E>,
) -> Result<Vec<Player<E>>, AllocError> {
    let mut players = Vec::new(alloc);
    for (own, end) in ends.into_iter().enumerate() {
        let lanes = lanes_of(alloc, plan, own)?;
        players.push(new_player(alloc, plan, own, end, lanes))?;
    }
    Ok(players)
}

/// Sends one message, and makes its body first.
#[inline(always)]
fn send_one<E: End>(
    end: &mut E,
    alloc: Global,
    body: usize,
    other: usize,
) -> Result<bool, Stopped> {
    end.send(other, body_of(alloc, body)?)
}

impl<E: End> Player<E> {
    /// Tries each lane once. It returns how many messages were passed.
    fn step(&mut self) -> Result<usize, Stopped> {
        let before = self.left;
        for (other, lane) in self.lanes.iter_mut().enumerate() {
            if lane.got < lane.to_get && self.end.receive(other, &mut self.seen)? {
                lane.got = lane.got.saturating_add(1);
                self.left = self.left.saturating_sub(1);
            }
            let may_send = !self.answers
                || if self.is_first {
                    lane.sent == lane.got
                } else {
                    lane.sent < lane.got
                };
            if lane.sent < lane.to_send
                && may_send
                && send_one(&mut self.end, self.alloc, self.body, other)?
            {
                lane.sent = lane.sent.saturating_add(1);
                self.left = self.left.saturating_sub(1);
            }
        }
        Ok(before.saturating_sub(self.left))
    }

    /// Makes steps until all messages have passed.
    fn pass_all(&mut self) -> Result<(), Stopped> {
        for _ in 0..MOST_STEPS {
            if self.left == 0 {
                return Ok(());
            }
            if self.step()? == 0 {
                thread::yield_now();
            }
        }
        Err(Stopped)
    }
}

/// The most steps, and the most times that a thread checks whether the others are there.
const MOST_STEPS: u64 = 1 << 40;

/// Runs all instances on this thread. Each of them makes a step in turn.
fn pass_by_turns<E: End>(players: &mut [Player<E>]) -> Result<(), Stopped> {
    for _ in 0..MOST_STEPS {
        let mut passed = 0usize;
        for player in players.iter_mut() {
            passed = passed.saturating_add(player.step()?);
        }
        if passed == 0 {
            return Ok(());
        }
    }
    Err(Stopped)
}

/// Passes bursts from the first instance to the second.
fn pass_bursts<E: End>(
    plan: &Plan,
    first: &mut Player<E>,
    second: &mut Player<E>,
) -> Result<(), Stopped> {
    for _ in 0..plan.messages / plan.capacity.max(1) {
        for _ in 0..plan.capacity {
            if send_one(&mut first.end, first.alloc, first.body, 1)? {
                first.left = first.left.saturating_sub(1);
            }
        }
        for _ in 0..plan.capacity {
            if second.end.receive(0, &mut second.seen)? {
                second.left = second.left.saturating_sub(1);
            }
        }
    }
    Ok(())
}

/// Passes batches from the first instance to the second.
fn pass_batches<E: End>(
    plan: &Plan,
    first: &mut Player<E>,
    second: &mut Player<E>,
) -> Result<(), Stopped> {
    let many = plan.capacity;
    for _ in 0..plan.messages / many.max(1) {
        first.end.send_batch(first.alloc, 1, first.body, many)?;
        first.left = first.left.saturating_sub(many);
        second.end.receive_batch(0, many, &mut second.seen)?;
        second.left = second.left.saturating_sub(many);
    }
    Ok(())
}

/// The outcome of instances that have passed all messages in this number of nanoseconds.
fn print_outcome<E>(
    plan: &Plan,
    players: &Vec<Player<E>>,
    nanoseconds: u64,
) -> anyhow::Result<Outcome> {
    let mut messages = 0u64;
    let mut seen = Seen {
        listed: 0,
        firsts: 0,
    };
    for player in players {
        if player.left > 0 {
            anyhow::bail!("a message was refused, or didn't come");
        }
        seen.listed = seen.listed.saturating_add(player.seen.listed);
        seen.firsts = seen.firsts.saturating_add(player.seen.firsts);
    }
    for from in 0..plan.instances {
        for to in 0..plan.instances {
            messages = messages.saturating_add(plan.share(from, to) as u64);
        }
    }
    Ok(Outcome {
        nanoseconds,
        messages,
        seen,
    })
}

/// The first two players.
fn first_two<E>(players: &mut [Player<E>]) -> Result<(&mut Player<E>, &mut Player<E>), Stopped> {
    match players {
        [first, second, ..] => Ok((first, second)),
        _ => Err(Stopped),
    }
}

/// Passes all messages on this thread.
fn pass_here<E: End>(plan: &Plan, players: &mut [Player<E>]) -> Result<(), Stopped> {
    match plan.traffic {
        Traffic::Burst => {
            let (first, second) = first_two(players)?;
            pass_bursts(plan, first, second)
        }
        Traffic::Batch => {
            let (first, second) = first_two(players)?;
            pass_batches(plan, first, second)
        }
        _ => pass_by_turns(players),
    }
}

/// The nanoseconds that it takes to pass all messages on this thread.
fn time_here<R: Clock, E: End>(
    rt: &R,
    plan: &Plan,
    players: &mut [Player<E>],
) -> anyhow::Result<u64> {
    let start = Instant::now(rt)?;
    let passed = pass_here(plan, players);
    let took = start.elapsed(rt)?;
    if passed.is_err() {
        anyhow::bail!("a message was refused");
    }
    Ok(u64::try_from(took.as_nanos())?)
}

/// Passes all messages on this thread. It returns the outcome.
fn run_here<R: Clock, E: End + Drop>(
    rt: &R,
    plan: &Plan,
    mut players: Vec<Player<E>>,
) -> anyhow::Result<Outcome> {
    let nanoseconds = time_here(rt, plan, players.as_mut_slice())?;
    print_outcome(plan, &players, nanoseconds)
}

/// Waits until all threads are there, and passes the messages of an instance. It returns the nanoseconds that this
/// took.
fn time_player<R: Clock, E: End>(
    rt: &R,
    player: &mut Player<E>,
    instances: usize,
    there: &AtomicU64,
) -> anyhow::Result<u64> {
    there.fetch_add(1, Ordering::SeqCst);
    for _ in 0..MOST_STEPS {
        if there.load(Ordering::SeqCst) >= instances as u64 {
            break;
        }
        thread::yield_now();
    }
    let start = Instant::now(rt)?;
    let passed = player.pass_all();
    let took = start.elapsed(rt)?;
    if passed.is_err() {
        anyhow::bail!("a message was refused, or didn't come");
    }
    Ok(u64::try_from(took.as_nanos())?)
}

/// The same, and returns the instance too.
fn run_player<R: Clock, E: End + Drop>(
    rt: &R,
    mut player: Player<E>,
    instances: usize,
    there: &AtomicU64,
) -> anyhow::Result<(Player<E>, u64)> {
    let nanoseconds = time_player(rt, &mut player, instances, there)?;
    Ok((player, nanoseconds))
}

/// Passes all messages, each instance on a thread of its own. The slowest instance counts.
fn run_threads<R: Threads + Sync + Clock, E: End + Send + Drop>(
    rt: &R,
    alloc: Global,
    plan: &Plan,
    players: Vec<Player<E>>,
) -> anyhow::Result<Outcome> {
    let there = AtomicU64::new(0);
    let instances = plan.instances;
    let ran = thread::map_vec(
        rt,
        players,
        &|player| { run_player(rt, player, instances, &there).ok() },
    )?;
    let mut players = Vec::new(alloc);
    let mut slowest = 0;
    for player in ran {
        match player {
            Some((player, nanoseconds)) => {
                slowest = nanoseconds.max(slowest);
                players.push(player)?;
            }
            None => anyhow::bail!("an instance failed"),
        }
    }
    print_outcome(plan, &players, slowest)
}

fn run_ends<R: Threads + Sync + Clock, E: End + Send + Drop>(
    rt: &R,
    alloc: Global,
    plan: &Plan,
    ends: Vec<E>,
) -> anyhow::Result<Outcome> {
    let players = make_players(alloc, plan, ends)?;
    if plan.on_threads {
        run_threads(rt, alloc, plan, players)
    } else {
        run_here(rt, plan, players)
    }
}

/// Passes all messages of a plan over a new board, or over new rings.
pub fn run_round<R: Threads + Sync + Clock>(
    rt: &R,
    alloc: Global,
    peer: Peer,
    plan: &Plan,
) -> anyhow::Result<Outcome> {
    match peer {
        Peer::Board => {
            let mut board = Board::new(alloc, plan.instances, plan.capacity)?;
            let ends = post_ends(alloc, &mut board)?;
            run_ends(rt, alloc, plan, ends)
        }
        Peer::Rings => {
            let ends = hand_ends(alloc, plan.instances, plan.capacity)?;
            run_ends(rt, alloc, plan, ends)
        }
    }
}
