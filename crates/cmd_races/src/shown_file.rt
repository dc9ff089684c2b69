//! The answer beside the races of a file.
ghost use Rattle.cmd_races.specs.Statuses.{noted_exit};

use cmd_base::{Answer, NotDone, Status, print_not_done};
use texts::Out;

/// The answer after races were written, of a chart that may be a schedule's.
#[derive(Debug, Drop)]
pub(crate) struct ShownFile {
    /// Whether some race is shown.
    pub(crate) status: Status,
    /// The commands of the schedule that did nothing, if there are some.
    pub(crate) not_done: Option<NotDone>,
}

/// The status, and the commands that did nothing.
impl Answer for ShownFile {
    ghost exit = { noted_exit };

    fn status(&self) -> u8 {
        self.status.status()
    }

    fn print_diagnostics<V: Out>(&self, err: &mut V) {
        print_not_done(&self.not_done, err);
    }
}
