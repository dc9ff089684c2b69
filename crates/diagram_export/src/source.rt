//! The source of an export.
use chart::{Names, Report};
use chart_layout::{Ends, Layout};
use closure::Closure;

/// A chart as it is drawn: with its names, its layout, the other ends of its messages and the reports of its receives.
#[derive(Clone, Copy)]
pub struct ExportSource<'a> {
    pub names: &'a Names,
    /// The chart.
    pub closure: &'a Closure<'a>,
    pub layout: &'a Layout,
    pub ends: &'a Ends,
    pub reports: &'a [Report],
}
