//! Laws of the texts of charts. Each law is the contract of a function that does nothing.
ghost use Rattle.std.specs.Prelude.{◌≡◌, ℕ, List, Ok, Err};
ghost use Rattle.chart.specs.Charts.{LineView};
ghost use Rattle.msc_text.specs.ChartText.{chart_text};
ghost use Rattle.texts.specs.declared.fault.Cause.TheVariants.{UnknownInstance};
ghost use Rattle.texts.specs.declared.fault.Fault.{Fault};
ghost use Rattle.msc_text.specs.Reader.HasText.{HasText};
ghost use Rattle.msc_text.specs.Reader.Reading.{names_in, lines_in};

/// No two pairs of names and lines have the same text.
pub fn text_law()
    ensures { (names others : List (List ℕ)) (lines more : List LineView) → HasText names lines → HasText others more
        → chart_text names lines ≡ chart_text others more → (names ≡ others) × (lines ≡ more) }
{}

/// If the first look finds no fault, the second look can find only an unknown instance (F23).
pub fn second_look_law()
    ensures { (bytes : List ℕ) (names : List (List ℕ)) (fault : Fault) → names_in bytes ≡ Ok names
        → lines_in names bytes ≡ Err fault → (line : ℕ) × (fault ≡ Fault.Line line UnknownInstance) }
{}
