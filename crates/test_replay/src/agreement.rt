//! Tests that the outcome of a schedule is that of the plain model in Python: for worked schedules, and for random
//! orders of one. The model's answers are in `stored`, as `tools/model/stored_replays.py` prints them.

use crate::calls::are_bytes;
use crate::stored::{DRAWN, WORKED};
use closure::audit;
use schedule::Schedule;
use schedule::interleaver::drawn;
use schedule_replay::replay;
use sha2::{Digest, Sha256};
use std::alloc::Global;
use std::process::Abort;
use texts::MemoryOut;

/// The outcome of the schedule, as text. The audit accepts its reports.
fn text_of(rt: &impl Abort, alloc: Global, schedule: &Schedule) -> MemoryOut {
    let outcome = replay(alloc, schedule).expect(rt, "an outcome");
    audit(alloc, outcome.chart(), outcome.reports()).expect(rt, "the same reports");
    let mut text = MemoryOut::new(alloc);
    outcome.write(&mut text).expect(rt, "an outcome's text");
    text
}

/// Asserts that the outcome of the schedule with this text is the wanted one.
fn comes_to(rt: &impl Abort, alloc: Global, text: &[u8], wanted: &[u8]) {
    let schedule = Schedule::read(alloc, text).expect(rt, "a schedule");
    let text = text_of(rt, alloc, &schedule);
    are_bytes(rt, "what it comes to", text.as_bytes(), wanted);
}

#[test]
fn worked_schedules(rt: HostRuntime) {
    for (text, wanted) in &WORKED {
        comes_to(&rt, rt.alloc(), text, wanted);
    }
}

/// A schedule of three instances that pass messages round, this number of times.
fn rounds(rt: &impl Abort, alloc: Global, times: usize) -> Schedule {
    let turn = b"a send b x\nb send c y\nc send a z\na any\nb any\nc any\n";
    let mut text = Vec::new(alloc);
    text.extend_from_slice(b"instances a b c\ncapacity 2\n")
        .expect(rt, "a front");
    for _ in 0..times {
        text.extend_from_slice(turn).expect(rt, "a turn");
    }
    Schedule::read(alloc, text.as_slice()).expect(rt, "a schedule")
}

/// The digest shows that something differs, but not what. `tools/fuzz/judge_replays` compares random orders one by one.
#[test]
fn a_thousand_drawn(rt: HostRuntime) {
    let schedule = rounds(&rt, rt.alloc(), 20);
    let mut digest = Sha256::new();
    for seed in 0..1000 {
        let drawn = drawn(rt.alloc(), &schedule, seed).expect(&rt, "an order");
        let text = text_of(&rt, rt.alloc(), &drawn);
        digest.update(text.as_bytes());
    }
    let digest = digest.finalize();
    are_bytes(&rt, "the digest", digest.as_slice(), DRAWN);
}
