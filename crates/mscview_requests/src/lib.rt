//! All that `mscview` does with a command line, for any provider of files and any outputs.
//!
//! What is promised of [`view_request`]: the request, which has the words of a command line, and the bytes of its files
//! determine the output. Each command does with the bytes what its own crate or module promises (`specs/Views`). The
//! command is the one of the request. It has the options in the request's words, and reads the files that they name, in
//! order.
//!
//! - The words are checked first. If they aren't valid, they are refused (G1) before a file is read. Only `--luck` is
//!   refused later, after the file is read, if the file doesn't show luck.
//! - Then the files are read, one after another. The first file that can't be read is refused with the cause that the
//!   [`Giver`] returns.
//! - Such a refusal writes nothing to the output. It writes its line to standard error, or a beginning of it if that
//!   fails. The exit status is 2.
//!
//! What is promised of [`view`]: it does what some request asks for, or the words form no request. No contract states
//! which request it is. For the words of `mscrun` one does (`cli::requested`).
//!
//! [`words`] reads the values of some options.
#![tactic(auto)]

mod asking;
mod beside;
mod counting;
mod drawing;
mod file_bytes;
mod giving;
mod importing;
mod log_words;
mod mends;
mod questions;
mod racing;
mod recorded;
mod refusing;
mod requests;
pub mod words;
mod writing;

pub use counting::many_files;
pub use file_bytes::FileBytes;
pub use giving::Giver;
pub use refusing::refusal;
pub use requests::{view, view_request};
