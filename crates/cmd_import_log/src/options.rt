//! How a log is read.
use log_lines::LineRange;
use log_lines::names::Peer;

/// How the lines of a log are written.
#[derive(Clone, Copy, Debug, PartialEq, Eq)]
pub enum Form<'a> {
    /// In plain words: `HOST DIR [to or from] PEER NAME [ID] [REST]`.
    Plain,
    /// By this expression.
    Pattern(&'a str),
    /// As in logs for ShiViz.
    ShiViz,
}

/// How a log is read.
#[derive(Clone, Copy, Debug)]
pub struct Options<'a> {
    pub form: Form<'a>,
    /// The lines of each file that are read.
    pub range: LineRange,
    /// Hosts that are the first instances, as the log names them.
    pub hosts: &'a [&'a [u8]],
    /// Hosts that the log names by other words.
    pub peers: &'a [Peer<'a>],
}
