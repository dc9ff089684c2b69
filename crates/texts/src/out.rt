//! Outputs that take a text.
ghost use Rattle.std.specs.Prelude.{◌≡◌, ◌==◌, ◌≤◌, ◌<◌, [], take, length, Some, IfOk, OnErr};
ghost use Rattle.std.specs.Io.KnownBytes.{Appends};
ghost use Rattle.texts.specs.Outs.{Sink, Stored, Streamed, one_more};

use crate::retrying::write_some;
use std::alloc::{AllocError, Global};
use std::io::Write;
use std::marker::Model;
use thiserror::Error;

/// Why an [`Out`] took no byte.
#[derive(Clone, Copy, Debug, PartialEq, Eq, Error)]
pub enum OutFault {
    /// There is no memory to hold the bytes.
    #[error("there is no memory left")]
    Memory,
    /// The writer below failed.
    #[error("the writer failed")]
    Failed,
    /// The writer below took none of the bytes, as a full device does.
    #[error("the writer takes no more")]
    Full,
}

/// An output that takes the bytes of a text, some at a time.
pub trait Out {
    /// What a contract knows of the output: its bytes, if it reveals them, and the number of failed puts.
    ghost sink: { Self → Sink };

    /// Takes a beginning of the bytes, and returns its length, which is at least 1 unless the bytes are empty. On a
    /// fault no byte is taken.
    fn put(&mut self, bytes: &[u8]) -> Result<usize, OutFault>
        ensures count { IfOk result (λ k. (k ≤ length bytes.now) × (0 < length bytes.now → 1 ≤ k)) }
        ensures taken { IfOk result (λ k. Appends (sink self.old).contents (sink self.new).contents (take k bytes.now)
            × ((sink self.new).failures ≡ (sink self.old).failures)) }
        ensures fault { OnErr result (Appends (sink self.old).contents (sink self.new).contents []
            × ((sink self.new).failures ≡ one_more (sink self.old).failures)) };
}

/// An [`Out`] in memory, which reveals its bytes. A put fails if there is no memory left for it.
#[derive(Drop)]
pub struct MemoryOut {
    bytes: Vec<u8>,
    failures: u64,
}

impl Model for MemoryOut {
    ghost Value = { Stored };

    ghost view = { λ out. record { bytes = out.bytes.items; failures = out.failures } };
}

impl MemoryOut {
    /// An output with no bytes. It takes no memory yet.
    pub fn new(alloc: Global) -> MemoryOut
        ensures { result ≡ record { bytes = []; failures = 0 } }
    {
        MemoryOut {
            bytes: Vec::new(alloc),
            failures: 0,
        }
    }

    pub fn as_bytes(&self) -> &[u8]
        ensures { result.now ≡ self.now.bytes }
    {
        &self.bytes
    }

    /// Whether each put was taken. If not, memory was refused, and the text lacks bytes.
    pub fn is_whole(&self) -> bool
        ensures { result ≡ (self.now.failures == 0) }
    {
        self.failures == 0
    }

    pub fn into_bytes(self) -> Vec<u8>
        ensures { result.items ≡ self.bytes }
    {
        let MemoryOut { bytes, failures: _ } = self;
        bytes
    }
}

impl Out for MemoryOut {
    ghost sink = { λ out. record { contents = Some out.bytes; failures = out.failures } };

    fn put(&mut self, bytes: &[u8]) -> Result<usize, OutFault> {
        match self.bytes.extend_from_slice(bytes) {
            Ok(()) => Ok(bytes.len()),
            Err(AllocError) => {
                self.failures = self.failures.saturating_add(1);
                Err(OutFault::Memory)
            }
        }
    }
}

/// An [`Out`] over any writer. Each error of the writer is a fault, and so is a write that takes no byte. But a write
/// that a signal interrupts is tried again.
#[derive(Drop)]
pub struct StreamOut<W> {
    writer: W,
    failures: u64,
}

impl<W> Model for StreamOut<W> {
    ghost Value = { Streamed W };

    ghost view = { λ out. record { writer = out.writer; failures = out.failures } };
}

impl<W> StreamOut<W> {
    pub fn new(writer: W) -> StreamOut<W>
        ensures { result ≡ record { writer = writer; failures = 0 } }
    {
        StreamOut {
            writer,
            failures: 0,
        }
    }

    pub fn into_inner(self) -> W
        ensures { result ≡ self.writer }
    {
        let StreamOut {
            writer,
            failures: _,
        } = self;
        writer
    }
}

impl<W: Write> Out for StreamOut<W> {
    ghost sink = { λ out. record { contents = W.contents out.writer; failures = out.failures } };

    fn put(&mut self, bytes: &[u8]) -> Result<usize, OutFault> {
        if bytes.is_empty() {
            return Ok(0);
        }
        match write_some(&mut self.writer, bytes) {
            Ok(0) => {
                self.failures = self.failures.saturating_add(1);
                Err(OutFault::Full)
            }
            Ok(taken) => Ok(taken),
            Err(_) => {
                self.failures = self.failures.saturating_add(1);
                Err(OutFault::Failed)
            }
        }
    }
}
