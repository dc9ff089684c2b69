//! The markup between the parts of a page.
ghost use Rattle.std.specs.Prelude.{◌≡◌};
ghost use Rattle.texts.specs.Writing.{Adds};
ghost use Rattle.cmd_page.specs.Text.Words.{word_text};

use texts::{Out, TextBuffer, WriteError};

/// The markup between the parts of a page.
#[derive(Clone, Copy)]
pub(crate) enum Word {
    /// Before a line that is neither of the two events.
    LineStart,
    /// Before the line of the earlier event.
    EarlierStart,
    /// Before the line of the receive.
    ReceiveStart,
    /// After a line.
    LineEnd,
    /// After the line of an event.
    EventEnd,
    /// In place of lines that aren't shown.
    Gap,
    /// Before the numbers of a race.
    RaceStart,
    /// Between two numbers of an id.
    Dash,
    /// Before the number of the last earlier event.
    Last,
    /// Before the numbers of first events that must come before the receive.
    Before,
    /// Before the numbers of other events that must.
    Also,
    /// After all numbers.
    NumbersEnd,
    /// Before a number of a list.
    Space,
    /// Before the line of a race that is described in full.
    SummaryStart,
    /// Before the reason why it is a race.
    Why,
    /// Before another order.
    Witness,
    /// Before the message that removes the race.
    Mend,
    /// After the explanation.
    SummaryEnd,
    /// Before the line of a race that isn't described in full.
    ShortStart,
    /// After the line of a race that isn't described in full.
    ShortEnd,
    /// Before the title of the page.
    PageStart,
    /// Before the style.
    StyleStart,
    /// Before the title at the head of the page.
    HeadStart,
    /// Before the number of races.
    CountStart,
    /// After this number, if there is one race.
    OneRace,
    /// After this number, if there are no races or several.
    Races,
    /// Before the number of races that are described in full.
    ExplainedStart,
    /// After this number.
    ExplainedEnd,
    /// Before the picture.
    PictureStart,
    /// Before the races.
    RacesStart,
    /// Before the script.
    ScriptStart,
    /// After the script.
    PageEnd,
}

#[tactic(auto, unfolding(crate::specs::Text::Words::word_text))]
fn word_of(word: &Word) -> &[u8]
    ensures { result.now ≡ word_text word.now }
{
    match word {
        Word::LineStart => b"",
        Word::EarlierStart => b"<mark class=\"earlier\">",
        Word::ReceiveStart => b"<mark class=\"receive\">",
        Word::LineEnd => b"\n",
        Word::EventEnd => b"</mark>\n",
        Word::Gap => b"<i>..</i>\n",
        Word::RaceStart => b"<li id=\"r",
        Word::Dash => b"-",
        Word::Last => b"\" data-last=\"",
        Word::Before => b"\" data-before=\"",
        Word::Also => b"\" data-also=\"",
        Word::NumbersEnd => b"\">\n",
        Word::Space => b" ",
        Word::SummaryStart => b"<details><summary>",
        Word::Why => b"</summary>\n<h2>Why</h2>\n<pre>",
        Word::Witness => b"</pre>\n<h2>Another order</h2>\n<pre>",
        Word::Mend => b"</pre>\n<h2>A message by which it goes</h2>\n<pre>",
        Word::SummaryEnd => b"</pre>\n</details></li>\n",
        Word::ShortStart => b"<p>",
        Word::ShortEnd => b"</p></li>\n",
        Word::PageStart =>
            b"<!DOCTYPE html>\n<html lang=\"en\">\n<head>\n<meta charset=\"utf-8\">\n",
        Word::StyleStart => b"</title>\n<style>\n",
        Word::HeadStart => b"</style>\n</head>\n<body>\n<header>\n<h1>",
        Word::CountStart => b"</h1>\n<p>",
        Word::OneRace => b" race",
        Word::Races => b" races",
        Word::ExplainedStart => b", ",
        Word::ExplainedEnd => b" of them described in full",
        Word::PictureStart => b"</header>\n<main id=\"picture\">\n",
        Word::RacesStart => b"</main>\n<section id=\"list\">\n<ol id=\"races\">\n",
        Word::ScriptStart => b"</ol>\n</section>\n<script>\n",
        Word::PageEnd => b"</script>\n</body>\n</html>\n",
    }
}

/// Adds the markup. F24: a put failed.
pub(crate) fn add_word<W: Out>(text: &mut TextBuffer<'_, W>, word: Word) -> Result<(), WriteError>
    ensures { Adds W.sink text.old text.new result (word_text word) }
{
    text.add(word_of(&word))
}
