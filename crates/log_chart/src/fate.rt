//! Which lines of a log stay, and which are skipped.

/// The fate of a line.
#[derive(Clone, Copy, Debug, PartialEq, Eq)]
pub enum Fate {
    Stays,
    /// It is a send without a receive, and a later send of its lane was received. The line is skipped.
    Lost,
    /// Its message overtakes, and the line is skipped. The message of the line with this number was sent before it, and
    /// is received after it.
    Overtakes(usize),
}
