//! Tests of behaviours on threads: threads that are held back until each of them has begun, and runs whose reports are
//! audited.
use crate::behaviours::calls::{Does, run_board, script};
use behaviour::Behaviour;
use board::Gathered;
use chart::InstanceNo;
use closure::{AuditError, audit};
use instances::{End, Gate, Open};
use schedule::Schedule;
use schedule_threads::scripts::scripts;
use std::alloc::Global;
use std::sync::atomic::{AtomicU64, Ordering};
use std::thread;

/// Holds back the first act of each instance until three instances have come to theirs.
#[derive(Drop)]
struct Meeting {
    here: AtomicU64,
    late: AtomicU64,
}

impl Gate for Meeting {
    fn before(&self, _p: InstanceNo, turn: u32) {
        if turn != 1 {
            return;
        }
        self.here.fetch_add(1, Ordering::SeqCst);
        for _ in 0..1_000_000 {
            if self.here.load(Ordering::SeqCst) >= 3 {
                return;
            }
            thread::yield_now();
        }
        self.late.fetch_add(1, Ordering::SeqCst);
    }
}

#[test]
fn both_threads_move(rt: HostRuntime) {
    let alloc = rt.alloc();
    let gate = Meeting {
        here: AtomicU64::new(0),
        late: AtomicU64::new(0),
    };
    let mut behaviours: Vec<Box<dyn Behaviour + Send>> = Vec::new(alloc);
    for _ in 0..3 {
        let script = Box::new(alloc, script(&rt, alloc, &[Does::Open])).expect(&rt, "a box");
        assert!(rt; behaviours.push(script).is_ok());
    }
    let ran = run_board(&rt, alloc, (3, 1), behaviours, &gate);
    assert_eq!(rt; ran.traces.len(), 3);
    for end in ran.ends {
        assert_eq!(rt; end, End::Stopped);
    }
    assert_eq!(rt; ran.gathered.reports.len(), 0);
    assert_eq!(rt; gate.late.load(Ordering::SeqCst), 0);
}

/// A schedule of two instances whose messages a third one gets in either order.
const RACE: &[u8] = b"instances a b c
capacity 1
a send c x
b send c y
c any
c any
";

/// Whether an audit accepts the chart and the reports of the gathered board.
fn is_accepted(alloc: Global, gathered: &Gathered) -> bool {
    audit(alloc, &gathered.chart, gathered.reports.as_slice()).is_ok()
}

/// Whether an audit finds a wrong report if the last one, which has the race, is missing.
fn misses_the_last_report(alloc: Global, gathered: &Gathered) -> bool {
    match gathered.reports.as_slice().split_last() {
        Some((_, front)) => matches!(
            audit(alloc, &gathered.chart, front),
            Err(AuditError::WrongReport(_))
        ),
        None => false,
    }
}

#[test]
fn audited_runs(rt: HostRuntime) {
    let alloc = rt.alloc();
    let schedule = Schedule::read(alloc, RACE).expect(&rt, "a schedule");
    let mut behaviours: Vec<Box<dyn Behaviour + Send>> = Vec::new(alloc);
    for script in scripts(alloc, &schedule).expect(&rt, "scripts") {
        let script = Box::new(alloc, script).expect(&rt, "a box");
        assert!(rt; behaviours.push(script).is_ok());
    }
    let ran = run_board(&rt, alloc, (3, 1), behaviours, &Open);
    assert_eq!(rt; ran.gathered.reports.len(), 2);
    assert!(rt; is_accepted(alloc, &ran.gathered));
    assert!(rt; misses_the_last_report(alloc, &ran.gathered));
}
