//! A choice of a chart's races.

/// Which races of a chart are shown.
#[derive(Clone, Copy, Debug, PartialEq, Eq)]
pub struct Showing {
    /// Whether only receives are shown as earlier events.
    pub receives: bool,
    /// Whether instances are assumed to run to completion. Then only the races that remain are shown.
    pub run_to_completion: bool,
}
