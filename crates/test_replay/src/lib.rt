//! Tests of replays and of the crates below them, through their public items. Replays are compared with the plain model
//! in Python. Recorders among nine instances, ranges of races, audits and writers have tests of their own. Witnesses
//! are compared with all runs of small schedules, and are found for worked schedules.
//!
//! They are in a crate of their own, since a crate with tests is proved twice.
#![tactic(auto)]

#[cfg(test)]
mod agreement;
#[cfg(test)]
mod audits;
#[cfg(test)]
mod calls;
#[cfg(test)]
mod every_run;
#[cfg(test)]
mod ranges;
#[cfg(test)]
mod recorded;
#[cfg(test)]
mod recorders;
#[cfg(test)]
mod runs;
#[cfg(test)]
mod stored;
#[cfg(test)]
mod worked;
#[cfg(test)]
mod writers;
