//! The name of a line in texts about a log.
ghost use Rattle.std.specs.Prelude.{◌≡◌, map};
ghost use Rattle.log_text.specs.Spots.{spot_view, spot};

use log_lines::Place;

/// A line's name: `line 17`, or `FILE:17` if there are several files.
#[derive(Clone, Copy, Debug)]
pub struct Spot<'a> {
    pub front: &'a [u8],
    pub separator: &'a [u8],
    pub line: u64,
}

/// The line's name. `files` has the names of several files, and is empty for one.
pub fn spot_of<'a>(files: &[&'a [u8]], place: Place) -> Spot<'a>
    ensures { spot_view result ≡ spot (map (λ file. file.now) files.now) place }
{
    match files.get(place.text) {
        None => Spot {
            front: b"line",
            separator: b" ",
            line: place.line,
        },
        Some(file) => Spot {
            front: *file,
            separator: b":",
            line: place.line,
        },
    }
}
