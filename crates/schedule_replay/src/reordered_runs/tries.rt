//! The numbers of slots that are tried.
ghost use Rattle.std.specs.Prelude.{◌<◌, ◌≤◌};

/// The next number of slots to try, from `least` up to but not including `most`. `most` slots suffice, and the numbers
/// from `first` up to but not including `least` don't. Mostly a few more than the first number suffice. So the first
/// numbers are tried first, and then each time a number twice as far from them. No try is beyond the middle.
pub(crate) fn next_try(first: usize, least: usize, most: usize) -> usize
    requires begun { first ≤ least }
    requires some { least < most }
    ensures least { least ≤ result }
    ensures most { result < most }
{
    let passed = least - first;
    let half = (most - least) / 2;
    if passed < half {
        least + passed
    } else {
        least + half
    }
}
