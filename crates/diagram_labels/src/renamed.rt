//! Lines that report names which differ from their labels.
//!
//! [`add_all_renamed`] promises this: it adds exactly one line for each such name, with its label. If a put fails, it
//! has added a beginning of these lines. Nothing here takes memory.

mod reporting;

pub use reporting::add_all_renamed;
