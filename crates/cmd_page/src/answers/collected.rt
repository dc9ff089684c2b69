//! Texts that are written into memory.
ghost use Rattle.std.specs.Prelude.{◌≡◌, ◌==◌, [], Some};
ghost use Rattle.texts.specs.Outs.{Stored};

use std::alloc::{AllocError, Global};
use std::marker::Model;
use texts::{Out, OutFault};

/// An [`Out`] into memory. It returns its bytes, and whether a put failed. A put fails if there is no memory left for
/// it.
#[derive(Drop)]
pub struct Collected {
    bytes: Vec<u8>,
    failures: u64,
}

impl Model for Collected {
    ghost Value = { Stored };

    ghost view = { λ out. record { bytes = out.bytes.items; failures = out.failures } };
}

impl Collected {
    /// A text with no bytes. It allocates no memory yet.
    pub fn new(alloc: Global) -> Collected
        ensures { result ≡ record { bytes = []; failures = 0 } }
    {
        Collected {
            bytes: Vec::new(alloc),
            failures: 0,
        }
    }

    /// Whether no put failed.
    pub fn is_whole(&self) -> bool
        ensures { result ≡ (self.now.failures == 0) }
    {
        self.failures == 0
    }

    pub fn as_bytes(&self) -> &[u8]
        ensures { result.now ≡ self.now.bytes }
    {
        &self.bytes
    }

    pub fn into_bytes(self) -> Vec<u8>
        ensures { result.items ≡ self.bytes }
    {
        let Collected { bytes, failures: _ } = self;
        bytes
    }
}

impl Out for Collected {
    ghost sink = { λ out. record { contents = Some out.bytes; failures = out.failures } };

    fn put(&mut self, bytes: &[u8]) -> Result<usize, OutFault> {
        match self.bytes.extend_from_slice(bytes) {
            Ok(()) => Ok(bytes.len()),
            Err(AllocError) => {
                self.failures = self.failures.saturating_add(1);
                Err(OutFault::Memory)
            }
        }
    }
}
