//! Tools that draw sequence diagrams from a text.
//!
//! [`detection`] finds the tool of a text.
#![tactic(auto)]

/// A tool that draws sequence diagrams from a text.
#[derive(Clone, Copy, Debug, PartialEq, Eq)]
pub enum Tool {
    /// mscgen 0.20.
    Mscgen,
    /// PlantUML's sequence diagrams.
    PlantUml,
    /// Mermaid's sequence diagrams.
    Mermaid,
}

pub mod detection;
