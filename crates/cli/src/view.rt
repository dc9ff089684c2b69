//! The command line of `mscview`: which command is asked for, and with which words.

mod commands;
mod questions;
mod reading;
mod request;
mod showing;

pub use crate::CommandLineError;
pub use reading::requested;
pub use request::{
    Compare, Draw, DrawWitness, Export, Import, ImportLog, LogForm, LogQuestion, LogRaces, Mend,
    MendLuck, Page, Pair, Question, RaceQuestion, Races, Reading, Request, Rows, ToolQuestion,
};
pub use showing::Showing;
