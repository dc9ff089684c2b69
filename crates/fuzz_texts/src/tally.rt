//! The answers to many texts, in a few lines.

use sha2::{Digest, Sha256};
use std::io;

/// A number above that of each refusal of a text.
const REFUSALS: usize = 32;

const REFUSED: &[u8] = b"refused: F";

/// How many texts were read and how many were refused, and a digest of all texts with their answers.
#[derive(Drop)]
pub struct Tally {
    read: u64,
    /// The counts, by the number of the refusal.
    refused: [u64; REFUSALS],
    digest: Sha256,
}

/// The number at the beginning of these bytes, such as 20 for `20 Syntax 3`.
fn number_in(digits: &[u8]) -> usize {
    let mut number = 0usize;
    for digit in digits {
        if !digit.is_ascii_digit() {
            break;
        }
        number = number
            .saturating_mul(10)
            .saturating_add(usize::from(digit.wrapping_sub(b'0')));
    }
    number
}

impl Tally {
    pub fn new() -> Tally {
        Tally {
            read: 0,
            refused: [0; REFUSALS],
            digest: Sha256::new(),
        }
    }

    /// Counts a text by its text on standard error, and adds its record to the digest.
    pub fn add(&mut self, diagnostics: &[u8], record: &[u8]) {
        self.digest.update(record);
        match diagnostics.strip_prefix(REFUSED) {
            None => self.read = self.read.saturating_add(1),
            Some(rest) => {
                if let Some(count) = self.refused.get_mut(number_in(rest)) {
                    *count = count.saturating_add(1);
                }
            }
        }
    }

    /// Prints how many texts were read, how many each refusal refused, if any, and the digest.
    pub fn print<R: Print>(self, rt: &R) -> io::Result<()> {
        let Tally {
            read,
            refused,
            digest,
        } = self;
        println!(rt; "read {read}")?;
        for (number, count) in refused.iter().enumerate() {
            if *count > 0 {
                println!(rt; "F{number} {count}")?;
            }
        }
        print!(rt; "sha256 ")?;
        for byte in digest.finalize() {
            print!(rt; "{byte:02x}")?;
        }
        println!(rt)
    }
}
