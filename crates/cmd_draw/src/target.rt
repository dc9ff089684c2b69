//! The tools that a command line names.
ghost use Rattle.std.specs.Prelude.{◌≡◌};
ghost use Rattle.cmd_draw.specs.Targets.{tool_named, target_named};

use diagram_tool::Tool;

/// The tool that a chart is exported for.
#[derive(Clone, Copy, Debug, PartialEq, Eq)]
pub enum Target {
    /// A tool for sequence diagrams.
    Diagram(Tool),
    /// ShiViz, which reads a log with vector clocks.
    ShiViz,
}

/// The tool that a word of a command line names: `mscgen`, `plantuml` or `mermaid`.
pub fn tool_in(word: &str) -> Option<Tool>
    ensures { result ≡ tool_named word.now }
{
    match word {
        "mscgen" => Some(Tool::Mscgen),
        "plantuml" => Some(Tool::PlantUml),
        "mermaid" => Some(Tool::Mermaid),
        _ => None,
    }
}

/// The target of an export that a word of a command line names: a tool for diagrams, or `shiviz`.
pub fn target_in(word: &str) -> Option<Target>
    ensures { result ≡ target_named word.now }
{
    if word == "shiviz" {
        return Some(Target::ShiViz);
    }
    match tool_in(word) {
        Some(tool) => Some(Target::Diagram(tool)),
        None => None,
    }
}
