//! A mailbox: a post that also receives from whichever instance has a message, each in its turn.
//!
//! [`Mailbox::any`] looks at the lanes from the other instances in cyclic order. It begins after the instance from
//! which this mailbox received last, and at first with instance 1. The first lane on which it finds a message decides:
//! the answer is that of [`board::Post::receive`] for this lane, with the exact report. If it finds no message, each
//! lane was empty at its look. If it also finds the end, each lane is closed and stays empty. [`any_from`] does the
//! same with a post. All other calls are those of the post. `specs/TakingAny.antt` defines what `any` answers, and
//! `Mailboxes` what a contract sees of a mailbox. [`laws`] states that each other instance has its turn.
#![tactic(auto)]

mod any;
pub mod laws;
mod mailbox;

pub use any::any_from;
pub use mailbox::Mailbox;
