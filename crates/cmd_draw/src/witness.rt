//! What `mscview draw --witness` writes for the bytes of a file: the chart beside its witness, with two events marked
//! in both.
//!
//! The bytes of the file, the pair of events, and the wanted form of the pictures decide the bytes of the output of
//! [`draw_witness`]:
//!
//! - With status 1 it wrote exactly the text of one picture. On the left is the picture of the chart, as `mscview draw`
//!   writes it. On the right is the picture of the outcome of the schedule that `mscview witness` writes. In both a
//!   square is around the earlier event, and a ring around the receive. On the right these are the events of the same
//!   lanes and turns.
//! - With status 0 no run has the receive before the event, and nothing was written to the output.
//! - With status 2 it wrote the refusal's line, or a beginning of it if standard error failed. It wrote nothing to the
//!   output before that, unless a write failed (F24). Its refusals are F34 and those of `mscview witness`.

mod beside;
mod counterparts;
mod drawing;
mod error;
mod stage;

pub use drawing::{Wanted, draw_witness};
pub use error::PictureError;
