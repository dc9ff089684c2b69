//! Pictures of message sequence charts, as SVG text: a column for each instance, an arrow for each message, and the
//! races in red.
//!
//! What is promised:
//!
//! - [`write_picture`] writes the text of the picture and nothing else. The contract determines each byte of it
//!   (`specs/PictureText`): the position, the text and the order of all lines, labels and marks. Bytes of the title
//!   that have a meaning in XML are escaped, and bytes that aren't printable ASCII are replaced. So no element can
//!   begin in it.
//! - The texts of a margin are on the right of the picture. Each is at the row of the first message that is sent below
//!   it, and escaped like the title (`specs/Margins`).
//! - A picture has its size, and the spot of an event on it ([`Picture::width`], [`Picture::tall`],
//!   [`Picture::spot_of`]). [`add_picture`] adds its text to another text.
//! - The picture is drawn from the values that its caller gave ([`Picture::of`]). These are the chart, its layout, the
//!   ends of its messages, the reports of its receives, and the part to draw.
//! - F24: if a put fails, a beginning of the text was written, and no other put is tried. F6: only [`Picture::of`]
//!   takes memory, and it fails only if there is none.
#![tactic(auto)]

mod columns;
mod frame;
mod labels;
mod margin;
mod marks;
mod outline;
mod part;
mod picture;
mod preparing;
mod rows;
mod spots;
mod there;

pub use frame::{add_picture, write_picture};
pub use part::{Part, Source};
pub use picture::Picture;
