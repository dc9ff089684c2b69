//! The range of lines that are read.
ghost use Rattle.std.specs.Prelude.{◌≡◌};
ghost use Rattle.log_lines.specs.Reading.{is_within};

/// The range of lines that are read in each text: from the first to the last of them, counted from 1.
#[derive(Clone, Copy, Debug, PartialEq, Eq)]
pub struct LineRange {
    pub first: u64,
    pub last: u64,
}

impl LineRange {
    /// All lines.
    pub const ALL: LineRange = LineRange {
        first: 1,
        last: u64::MAX,
    };
}

const _: () = prove!(LineRange::ALL.first == 1 && LineRange::ALL.last == u64::MAX);

/// Whether the line with this number is in the range.
pub fn is_within(range: LineRange, line: u64) -> bool
    ensures { result ≡ is_within range line }
{
    range.first <= line && line <= range.last
}
