//! The place of a diagram in a text.
ghost use Rattle.std.specs.Prelude.{◌≡◌, ◌+◌};
ghost use Rattle.diagram_statements.specs.Lines.{lines_of, first_line};
ghost use Rattle.diagram_plantuml.specs.Regions.{is_mark, is_start, is_end, region_behind, region_in};
ghost use Rattle.diagram_plantuml.specs.declared.region.Region.TheVariants.{Above};

use diagram_plantuml_arrows::{Class, run_length};
use diagram_statements::{Line, behind_line, first_line};
use texts::begins_with;

/// The region of a line.
#[derive(Clone, Copy, Debug)]
pub(crate) enum Region {
    /// Above the diagram.
    Above,
    /// In the diagram.
    Inside,
    /// Below it.
    Below,
}

/// Whether a line begins with this whole word.
#[tactic(auto, unfolding(crate::specs::Regions::is_mark))]
fn is_mark(mark: &[u8], words: &[u8]) -> bool
    ensures { result ≡ is_mark mark.now words.now }
{
    begins_with(words, mark) && run_length(Class::Word, &words[mark.len()..]) == 0
}

/// Whether a diagram begins with this line.
pub(crate) fn is_start(words: &[u8]) -> bool
    ensures { result ≡ is_start words.now }
{
    is_mark(b"@startuml", words)
}

/// Whether a diagram ends with this line.
pub(crate) fn is_end(words: &[u8]) -> bool
    ensures { result ≡ is_end words.now }
{
    is_mark(b"@enduml", words)
}

/// The region of the line after this one.
#[tactic(auto, unfolding(crate::specs::Regions::region_behind))]
pub(crate) fn region_behind(region: Region, words: &[u8]) -> Region
    ensures { result ≡ region_behind region words.now }
{
    match region {
        Region::Above if is_start(words) => Region::Inside,
        Region::Inside if is_end(words) => Region::Below,
        _ => region,
    }
}

/// The region after a text's last line.
pub(crate) fn region_in(text: &[u8]) -> Region
    ensures { result ≡ region_in Above (lines_of text.now) }
{
    let mut region = Region::Above;
    let mut number = 1;
    let mut rest = text;
    'lines: while let [_, ..] = rest {
        region = region_behind(region, first_line(number, rest).words);
        number += 1;
        rest = behind_line(rest);
    }
    region
}
