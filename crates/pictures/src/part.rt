//! The source of a picture, and the part of it that is drawn.
use chart::{InstanceNo, Names, Report};
use chart_layout::margin::MarginNote;
use chart_layout::{Ends, Layout};
use closure::Closure;

/// The source of a picture: a chart with its names, a title, its layout and the reports of its receives.
#[derive(Clone, Copy)]
pub struct Source<'a> {
    /// The text above the picture, of any bytes.
    pub title: &'a [u8],
    pub names: &'a Names,
    /// The chart.
    pub closure: &'a Closure<'a>,
    pub layout: &'a Layout,
    /// The other ends of the chart's messages.
    pub ends: &'a Ends,
    pub reports: &'a [Report],
}

/// The part of a chart that is drawn: the chosen events, and the other ends of their messages.
#[derive(Clone, Copy)]
pub struct Part<'a> {
    /// The instances that have a column, from left to right.
    pub instances: &'a [InstanceNo],
    /// The numbers of the first and of the last event that are chosen on each line, from 1.
    pub first: u32,
    pub last: u32,
    /// The numbers of the first and of the last row of the layout whose events are chosen, from 0.
    pub top: usize,
    pub bottom: usize,
    /// Whether each event has its number beside it.
    pub numbers: bool,
    /// The texts of the margin.
    pub notes: &'a [MarginNote],
}
