//! What `mscrun` and `mscview` do with the bytes of files, in the memory of another language.
//!
//! [`perform_into`] does a task as `cmd_run::perform` does it. [`view_into`] does the request of a command line as
//! `mscview_requests::view_request` does it. Both write into a caller's buffers what the program would write to
//! standard output and to standard error. They write as much as there is room for, and return the whole length of each.
#![tactic(auto)]

mod command_lines;
mod given;
mod performing;

pub use command_lines::{view_into, view_request_into};
pub use given::Bytes;
pub use performing::{Performed, perform_into};
