//! Measures times. Each is measured several times, and the median counts.
use anyhow::bail;
use std::time::{Clock, Instant};

/// The nanoseconds since `start`.
pub fn nanoseconds_since<R: Clock>(rt: &R, start: &Instant) -> anyhow::Result<u64> {
    Ok(u64::try_from(start.elapsed(rt)?.as_nanos())?)
}

/// The time that was taken, if all of the expected events were made.
pub fn when_all(took: anyhow::Result<u64>, had: usize, events: usize) -> anyhow::Result<u64> {
    if had != events {
        bail!("a message was refused, or didn't come");
    }
    took
}

/// The median of the times that something took.
pub fn median(took: &mut [u64]) -> u64 {
    took.sort_unstable();
    match took.get(took.len() / 2) {
        Some(middle) => *middle,
        None => 0,
    }
}
