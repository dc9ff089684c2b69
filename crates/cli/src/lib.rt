//! The command line of `mscrun`: which command is asked for, and with which words.
//!
//! It is a crate of its own because it depends only on `clap`. So it is proved in parallel with the crates that do the
//! work.
//!
//! What is promised of [`requested`]: the words of a command line make the request that `clap`'s own definitions make
//! of them, for a table of the commands. They are refused by G1 if and only if they make none. [`laws`] says which
//! forms are requests, for any words.
//!
//! [`view`] is the command line of `mscview`. No contract states yet which request its words make.
#![tactic(auto)]

mod error;
pub mod laws;
mod request;
pub mod view;
mod words;

pub use error::CommandLineError;
pub use request::{Request, requested};
use words::Word;
