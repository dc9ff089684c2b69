//! What `mscview races --luck` writes for the bytes of a schedule: its races of a command `any`.
//!
//! The bytes of the file, the names of instances and the form decide the output of [`lucky_races`].
//!
//! - With status 0 or 1 it wrote exactly the races whose earlier receive a command `any` made. Between the two events
//!   nothing is received from the later one's sender. The word is `any`. The status is 1 if a race is shown, and
//!   otherwise 0. Whether some run of the schedule's commands has the other order isn't decided: no luck is claimed.
//! - With status 2 it wrote the refusal's line, or the beginning of it if standard error failed. Nothing was written
//!   to the output before, unless a write failed (F24). A file that is no schedule is refused (G1).
//!
//! By [`Makers`] each race of a schedule has the verdict of its definition.

mod makers;
mod showing;
mod verdicts;

pub use showing::lucky_races;
pub use verdicts::Makers;
