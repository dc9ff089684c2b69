//! Behaviours: what an instance does next, by the answer to what it did last.
//!
//! A [`Behaviour`] is asked for an [`Act`], and gets the [`Answer`] to its last one. Its driver passes the act to the
//! instance's mailbox. Its ghost members define what it does: the act and the new state, for a state and an answer. A
//! [`Script`] is a list of acts whose messages have no bodies. The record of a run keeps [`BareAct`] and
//! [`BareAnswer`], which are everything except the messages' bodies and the reports. `specs/Bare.antt` defines these,
//! and `Scripts` what a script does.
#![tactic(auto)]

mod act;
mod answer;
mod bare_act;
mod bare_answer;
mod behaviour;
mod script;

pub use act::Act;
pub use answer::Answer;
pub use bare_act::BareAct;
pub use bare_answer::BareAnswer;
pub use behaviour::Behaviour;
pub use script::{Script, next_place};
