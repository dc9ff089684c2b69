//! The logger receives any message that comes, until all others have closed their lanes to it.
use behaviour::{Act, Answer, Behaviour};
use std::sync::Arc;
use std::sync::atomic::{AtomicU64, Ordering};

/// The logger. It counts the bytes of the bodies, for others that share its counter, since a behaviour itself doesn't
/// come back from a run.
#[derive(Drop)]
pub struct Logger {
    pub bytes: Arc<AtomicU64>,
}

impl Behaviour for Logger {
    ghost use Rattle.example_timed_requests.specs.Loggers.{logger_act};

    ghost act = { λ logger last. logger_act last };

    ghost after = { λ logger last. logger };

    fn next(&mut self, last: &Answer) -> Act {
        match last {
            Answer::Got(arrival) => {
                let bytes = arrival.message.body().len() as u64;
                self.bytes.fetch_add(bytes, Ordering::SeqCst);
                Act::Any
            }
            Answer::Start | Answer::Nothing => Act::Any,
            _ => Act::Stop,
        }
    }
}
