//! Laws of exact texts, each a clause of a function that does nothing.
ghost use Rattle.std.specs.Prelude.{◌≡◌, ℕ, List};
ghost use Rattle.chart.specs.Charts.{LineView};
ghost use Rattle.msc_text.specs.Reader.HasText.{HasText};
ghost use Rattle.msc_text.specs.ChartText.{chart_text};
ghost use Rattle.schedule.specs.Plans.{Plan};
ghost use Rattle.schedule.specs.ScheduleText.{schedule_text};
ghost use Rattle.schedule.specs.ScheduleText as plans;
ghost use Rattle.cmd_tidy.specs.Typing.{exact_text};

/// The text of a schedule or a chart stays as it is.
pub fn exact_law()
    ensures schedules { (p : Plan) → plans.HasText p → exact_text (schedule_text p) ≡ schedule_text p }
    ensures charts { (names : List (List ℕ)) (lines : List LineView) → HasText names lines → exact_text (chart_text names lines) ≡ chart_text names lines }
{}
