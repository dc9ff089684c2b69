//! Charts in texts, and whether some run has them.
ghost use Rattle.std.specs.Prelude.{◌≡◌, ◌⊎◌, List, length, OnOk, IfErr, IfOk};
ghost use Rattle.chart.specs.Charts.{LineView, chart_lines, IsPossible};
ghost use Rattle.closure.specs.Faults.{Refuses};
ghost use Rattle.cmd_base.specs.Contents.{Reads, IsRefused};
ghost use Rattle.msc_text.specs.Reader.Reading.{chart_of};

use crate::error::ProgramError;
use chart::{Chart, Names};
use closure::{ChartError, Closure};
use msc_text::reader::read;
use std::alloc::Global;
use texts::{TextError, named};

/// The names and the chart in the text. A refusal is the first fault of the text, or F6.
pub fn chart_in(alloc: Global, text: &[u8]) -> Result<(Names, Chart), ProgramError>
    ensures read { Reads result (chart_of text.now) }
    ensures named { IfOk result (λ read. length read.0 ≡ length read.1) }
{
    match read(alloc, text) {
        Ok(read) => Ok(read),
        Err(TextError::Memory) => Err(ProgramError::Memory),
        Err(TextError::Fault(fault)) => Err(ProgramError::Text(fault)),
    }
}

/// The refusal of the chart, with the name of the instance if it is about an event.
fn refusal(names: &Names, error: ChartError) -> ProgramError
    requires { (lines : List LineView) × (length names.now ≡ length lines) × Refuses (chart_lines lines) error }
    ensures { (lines : List LineView) → Refuses (chart_lines lines) error
        → (result ≡ ProgramError.Memory) ⊎ IsRefused result (names.now, lines) }
{
    match error {
        ChartError::ReceiveWithoutSend(receive) => ProgramError::ReceiveWithoutSend {
            instance: named(names, receive.instance),
            index: receive.index,
        },
        ChartError::NameMismatch(receive) => ProgramError::NameMismatch {
            instance: named(names, receive.instance),
            index: receive.index,
        },
        ChartError::Cyclic => ProgramError::Cyclic,
        ChartError::Memory => ProgramError::Memory,
    }
}

/// The closure of the chart, if the chart is possible. Any other chart is refused by F16, F17 or F18. F6: a growth was
/// refused.
pub fn closure_of<'a>(
    alloc: Global,
    names: &Names,
    chart: &'a Chart,
) -> Result<Closure<'a>, ProgramError>
    requires { length names.now ≡ length chart.now }
    ensures closure { IfOk result (λ closure. closure ≡ chart.now) }
    ensures possible { OnOk result (IsPossible (length chart.now) (chart_lines chart.now)) }
    ensures refused { IfErr result (λ e. (e ≡ ProgramError.Memory) ⊎ IsRefused e (names.now, chart.now)) }
{
    match Closure::of(alloc, chart) {
        Ok(closure) => Ok(closure),
        Err(error) => Err(refusal(names, error)),
    }
}
