//! Tests of a running board and of mailboxes on it, through their public items.
//!
//! They are in a crate of their own, since a crate with tests is proved twice.
#![tactic(auto)]

#[cfg(test)]
mod calls;
#[cfg(test)]
mod gathered;
#[cfg(test)]
mod growths;
#[cfg(test)]
mod mailboxes;
#[cfg(test)]
mod meetings;
#[cfg(test)]
mod parked;
#[cfg(test)]
mod refusals;
#[cfg(test)]
mod several_at_once;
#[cfg(test)]
mod tables;
#[cfg(test)]
mod threads;
