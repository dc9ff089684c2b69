//! Texts of mscgen 0.20, read by their grammar.
//!
//! [`read`] promises this: a text is read exactly if it is in mscgen's language. Its entities, and the arcs of each row
//! with their attributes, depend only on its bytes. The result for any other text is its first fault, with the line,
//! the column and the words there.
//!
//! The tokens depend only on the bytes too ([`tokens_of`]). Each has its kind, its place and the text from there on.
//! Blanks and comments are no tokens. Memory is refused only at a growth.

mod arc;
mod attributes;
mod entity;
mod fault;
mod lengths;
mod lexer;
mod msc;
mod piece;
mod reading;
mod relation;
mod signs;
mod stop;
mod token;
mod whole;
mod words;

pub use arc::{Arc, ArcKind};
pub use entity::Entity;
pub use fault::{Fault, MscgenError};
pub use lexer::tokens_of;
pub use msc::read;
pub use relation::Relation;
pub use token::{Kind, Token};
pub use whole::Msc;
