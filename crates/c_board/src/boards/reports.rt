//! The reports of a gathered board, one by one.
ghost use Rattle.std.specs.Prelude.{◌≡◌};
ghost use Rattle.chart.specs.Events.{ith};
ghost use Rattle.c_board.specs.Copying.{put_over, indices};
ghost use Rattle.c_board.specs.Boards.BoardCopies.{reported_of, CopiesReport, HandleReports, of_report};

use crate::misuse::{Misuse, Numbering};
use crate::numbered::Numbered;
use crate::{Handle, Kept, copy_events};
use chart::Report;

/// The description of a report of a gathered board.
#[derive(Clone, Copy)]
pub struct Reported {
    /// The number of the receiver, from 1.
    pub instance: u32,
    /// The number of the receive on its line, from 1.
    pub event: u32,
    /// How many races it has.
    pub races: usize,
}

/// Why a board's report isn't described: the first of these that applies.
#[derive(Clone, Copy)]
pub enum ReportRefusal {
    /// A misuse: the handle keeps no board.
    NoBoard,
    /// F31: the board has no receive with this number.
    NoEvent,
}

impl Numbered for ReportRefusal {
    ghost number = { λ misuses refusal. of_report misuses refusal };

    fn number(self, misuses: Numbering) -> u32 {
        match self {
            ReportRefusal::NoBoard => Misuse::NoBoard.number(misuses),
            ReportRefusal::NoEvent => 31,
        }
    }
}

/// Describes a report, and copies out the numbers of its earlier events, as many as there is room for.
fn copy_report(report: &Report, out: &mut [u32]) -> Reported
    ensures output { result ≡ reported_of report.now }
    ensures copied { out.new ≡ put_over (indices report.now.earlier) out.old }
{
    let receive = report.receive();
    Reported {
        instance: receive.instance.number() as u32,
        event: receive.index,
        races: copy_events(report.earlier(), out),
    }
}

/// Describes the report with this number, from 1, if there is one.
fn copy_nth(reports: &[Report], number: usize, out: &mut [u32]) -> Option<Reported>
    ensures { CopiesReport (ith reports.now number) out.old result out.new }
{
    if number == 0 || number > reports.len() {
        return None;
    }
    Some(copy_report(&reports[number - 1], out))
}

/// Describes the report with this number, from 1, of the board that is kept.
fn copy_kept(kept: &Kept, number: usize, out: &mut [u32]) -> Result<Reported, ReportRefusal>
    ensures { HandleReports (Some kept.now) number out.old result out.new }
{
    let Some(whole) = kept.board() else {
        return Err(ReportRefusal::NoBoard);
    };
    match copy_nth(whole.gathered.reports.as_slice(), number, out) {
        Some(reported) => Ok(reported),
        None => Err(ReportRefusal::NoEvent),
    }
}

/// Describes the board's report with this number, from 1. Each receive has one report, sorted by instance and index.
/// The call copies out the report's races: the numbers of the earlier events, as many as there is room for. F31: the
/// board has fewer receives.
pub fn report_at(
    board: &mut Handle,
    number: usize,
    out: &mut [u32],
) -> Result<Reported, ReportRefusal>
    ensures same { board.new.slot.value ≡ board.old.slot.value }
    ensures answer { HandleReports board.old.slot.value number out.old result out.new }
{
    if board.is_empty() {
        return Err(ReportRefusal::NoBoard);
    }
    let kept = board.slot.get_mut();
    copy_kept(&*kept, number, out)
}
