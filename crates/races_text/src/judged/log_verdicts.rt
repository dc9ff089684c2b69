//! The verdicts on the races of a log's recording.

use crate::judged::part::Part;
use crate::judged::verdicts::Verdicts;
use chart::{EventNo, EventRange};
use race_verdicts::luck::Judge;

/// The verdicts of a judge.
#[derive(Drop)]
pub struct LogVerdicts<'a> {
    pub judge: Judge<'a>,
}

impl Verdicts for LogVerdicts<'_> {
    ghost use Rattle.races_text.specs.Judged.LogVerdicts.{IsReceiveAndEvent, verdict_in};

    ghost is_race = { λ j r e. IsReceiveAndEvent j.judge.lines r e };

    ghost is_verdict = { λ j r e verdict. verdict_in j.judge.lines j.judge.recording r e verdict };

    fn verdict_of_first(&self, receive: &EventNo, earlier: &EventRange) -> Part {
        let run = self.judge.verdict_of_first(*receive, *earlier);
        Part {
            range: EventRange {
                first: earlier.first,
                count: run.count,
            },
            verdict: run.verdict,
        }
    }
}
