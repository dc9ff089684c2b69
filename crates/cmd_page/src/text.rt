//! Pages of charts, as HTML text: the picture, and the races with their explanations.
//!
//! [`write_page`] writes exactly the page's text, or the beginning of it if a put failed (F24). The text is a
//! function of a [`Page`]: of a title, a picture and races. The picture is put as it is. Titles and explanations are
//! escaped, so that none of their characters is markup. The script reads only numbers. Nothing here allocates memory.

mod event_rows;
mod excerpt;
mod fixed;
mod page;
mod race;
mod word;

pub use event_rows::{Deed, row_of};
pub use excerpt::Excerpt;
pub use page::{Page, write_page};
pub use race::{Answers, Race};
