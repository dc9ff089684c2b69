//! Which events of a picture are drawn, the places of its columns, and the widths of its texts.
//!
//! What is promised:
//!
//! - The columns are a function of the chart, its names, its reports and the drawn instances ([`columns_of`]). Each
//!   line is as far left as the labels allow that are drawn between it and the lines on its left.
//! - Beside a line with races there is room for their brackets and numbers. No label takes this room.
//! - An event is drawn exactly if its instance has a column, and the event or the other end of its message is chosen
//!   ([`Choice`]). So no arrow between two columns is cut.
//! - F6: only [`columns_of`] and [`places_of`] take memory, and they fail only if there is none.

mod choice;
mod columns;
mod placing;
mod plan;
mod rooms;
mod text_widths;

pub use choice::{Choice, places_of};
pub use columns::{Column, Room};
pub use placing::{columns_of, width_of};
pub use plan::Plan;
pub use text_widths::{line_break, name_width};
