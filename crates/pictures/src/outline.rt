//! The size of a picture, and the spots of its events, for programs that place other things beside it.
ghost use Rattle.std.specs.Prelude.{◌≡◌, ◌≤◌};
ghost use Rattle.pictures.specs.Pictures.{spot_of};
ghost use Rattle.pictures.specs.PictureText.{tall_of};

use crate::picture::Picture;
use crate::spots::{height, on_line};
use crate::there::marks_in;
use chart::EventNo;
use picture_parts::elements::{Spot, legend_tall};

impl<'a> Picture<'a> {
    /// The width of the picture, in pixels.
    pub fn width(&self) -> u32
        ensures { result ≡ self.now.width }
    {
        self.width
    }

    /// The height of the picture, in pixels.
    pub fn tall(&self) -> u64
        ensures value { result ≡ tall_of self.now }
        ensures limit { result ≤ 200000000000 }
    {
        let marks = marks_in(self);
        height(self.count()) + legend_tall(&marks) + 20
    }

    /// The spot at which an event meets its lifeline, if the event is drawn.
    pub fn spot_of(&self, event: &EventNo) -> Option<Spot>
        ensures { result ≡ spot_of self.now event.now }
    {
        match self.cell_of(event) {
            Some(cell) => Some(on_line(&cell)),
            None => None,
        }
    }
}
