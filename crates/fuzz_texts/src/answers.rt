//! Worked texts, and the program's answers to them after they are broken.

use crate::breaking::broken;
use cmd_run::{Task, perform};
use rand_pcg::Lcg64Xsh32;
use std::alloc::{AllocError, Global};
use texts::MemoryOut;

/// A chart or a schedule.
#[derive(Drop)]
pub struct Worked {
    /// The program's task for this text.
    task: Task,
    text: Vec<u8>,
}

/// A broken text, and the program's answer to it.
#[derive(Drop)]
pub struct Answered {
    task: Task,
    text: Vec<u8>,
    status: u8,
    out: MemoryOut,
    err: MemoryOut,
}

impl Worked {
    /// A chart is to be checked, and a schedule to be replayed.
    pub fn of(text: Vec<u8>) -> Worked {
        let task = if text.starts_with(b"msc") {
            Task::Check
        } else {
            Task::Replay
        };
        Worked { task, text }
    }

    /// Breaks the text, and gets its answer.
    pub fn answered(
        &self,
        alloc: Global,
        generator: &mut Lcg64Xsh32,
    ) -> Result<Answered, AllocError> {
        let task = self.task;
        let text = broken(alloc, generator, self.text.as_slice())?;
        let mut out = MemoryOut::new(alloc);
        let mut err = MemoryOut::new(alloc);
        let status = perform(alloc, &task, text.as_slice(), &mut out, &mut err);
        Ok(Answered {
            task,
            text,
            status,
            out,
            err,
        })
    }
}

impl Answered {
    /// The text on standard error: the line of a refusal, or nothing.
    pub fn diagnostics(&self) -> &[u8] {
        self.err.as_bytes()
    }

    /// A line `WORD STATUS LENGTH LENGTH LENGTH`, followed by the text, the standard output and the standard error,
    /// with these lengths. The word is `check` or `replay`.
    pub fn record(&self, alloc: Global) -> Result<Vec<u8>, AllocError> {
        let word = match self.task {
            Task::Check => "check",
            _ => "replay",
        };
        let status = self.status;
        let parts = [
            self.text.as_slice(),
            self.out.as_bytes(),
            self.err.as_bytes(),
        ];
        let mut record = format!(in alloc; "{word} {status}")?.into_bytes();
        for part in parts {
            let length = part.len();
            let number = format!(in alloc; " {length}")?;
            record.extend_from_slice(number.as_bytes())?;
        }
        record.push(b'\n')?;
        for part in parts {
            record.extend_from_slice(part)?;
        }
        Ok(record)
    }
}
