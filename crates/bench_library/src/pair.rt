//! Two instances that record the messages between them.
ghost use Rattle.bench_library.specs.Partners.{ArePartners};
ghost use Rattle.chart.specs.declared.instance.TheConstants.{MAX_INSTANCES};
ghost use Rattle.std.specs.Prelude.{◌≡◌, ◌≤◌, length, IfOk};

use chart::{InstanceNo, MAX_INSTANCES, Name};
use line_recorder::{RecordError, Recorder};
use std::alloc::{AllocError, Global};
use std::fmt;

/// The directions of the messages.
#[derive(Clone, Copy, Debug, PartialEq, Eq)]
pub enum Pattern {
    /// From the first instance to the second. The second line is a single run of receives from one sender.
    OneWay,
    /// To and fro. Each line has sends and receives in turn.
    Replies,
}

impl fmt::Display for Pattern {
    fn fmt<W: fmt::Write>(&self, f: &mut fmt::Formatter<W>) -> fmt::Result {
        match self {
            Pattern::OneWay => write!(f, "one way"),
            Pattern::Replies => write!(f, "to and fro"),
        }
    }
}

/// The recorders of the first two of this number of instances, 2 to [`MAX_INSTANCES`].
pub fn partners(alloc: Global, instances: usize) -> Result<(Recorder, Recorder), AllocError>
    requires at_least_two { 2 ≤ instances }
    requires at_most { instances ≤ MAX_INSTANCES }
    ensures partners { IfOk result (λ both. ArePartners both.0 both.1) }
    ensures instances { IfOk result (λ both. length both.0.knowledge ≡ instances) }
{
    prove!(2 <= instances && instances <= MAX_INSTANCES);
    let first = Recorder::new(alloc, InstanceNo::at_place(0), instances)?;
    let second = Recorder::new(alloc, InstanceNo::at_place(1), instances)?;
    Ok((first, second))
}

/// Passes a message. It returns whether its receive has races.
#[tactic(auto, using(crate::proofs::Partnering::sent, crate::proofs::Partnering::received))]
fn pass(from: &mut Recorder, to: &mut Recorder, name: Name) -> Result<bool, RecordError>
    requires { ArePartners from.old to.old }
    ensures { ArePartners from.new to.new }
{
    let clock = from.send(to.line().instance(), name)?;
    let report = to.receive(from.line().instance(), name, &clock, 0)?;
    Ok(!report.earlier().is_empty())
}

/// Passes this number of messages. It returns how many of their receives have races.
pub fn exchange(
    first: &mut Recorder,
    second: &mut Recorder,
    pattern: Pattern,
    messages: usize,
    name: Name,
) -> Result<usize, RecordError>
    requires { ArePartners first.old second.old }
    ensures { ArePartners first.new second.new }
{
    let mut races = 0;
    for message in 0..messages {
        let has_races = match pattern {
            Pattern::Replies if message % 2 == 1 => pass(second, first, name)?,
            _ => pass(first, second, name)?,
        };
        if has_races {
            races += 1;
        }
    }
    Ok(races)
}
