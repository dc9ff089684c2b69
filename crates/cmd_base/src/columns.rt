//! Which instances have a column, by the names on a command line, and the refusals.
//!
//! What is promised ([`columns_in`]): the columns are those of the named instances. Without names, all instances have a
//! column. A name that the chart doesn't have, or that is given twice, is refused (F34). F6 means that a growth was
//! refused.

mod answering;
mod columns;
mod error;

pub use answering::refused;
pub use columns::columns_in;
pub use error::ColumnError;
