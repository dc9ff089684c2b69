//! The messages that were received last.
ghost use Rattle.std.specs.Prelude.{◌≡◌};
ghost use Rattle.c_board.specs.declared.came.Came.TheVariants.{One};
ghost use Rattle.c_board.specs.Came.{came_list, picked, IsSeen};

use board::Arrival;
use chart::{InstanceNo, Message, Report};
use std::slice;

/// The messages of the last call that received some.
#[derive(Drop)]
pub enum Came {
    /// No call received one yet.
    None,
    /// The message of a receive of one.
    One(Arrival),
    /// The messages of a receive of several, in their order.
    Several(Vec<Arrival>),
}

/// Selects one of the messages that were received last.
#[derive(Clone, Copy)]
pub enum Which {
    /// The last one.
    Last,
    /// The one at this place, from 0.
    At(usize),
}

impl Came {
    /// Keeps only this message. It replaces the one before in place, part by part.
    #[inline(always)]
    pub(crate) fn keep(&mut self, from: InstanceNo, message: Message, report: Report)
        ensures { self.new ≡ One (record { from = from; message = message; report = report }) }
    {
        match self {
            Came::One(kept) => {
                kept.message = message;
                kept.report = report;
                kept.from = from;
            }
            _ => {
                *self = Came::One(Arrival {
                    from,
                    message,
                    report,
                });
            }
        }
    }

    /// The messages, in their order.
    pub(crate) fn as_slice(&self) -> &[Arrival]
        ensures { result.now ≡ came_list self.now }
    {
        match self {
            Came::None => &[],
            Came::One(arrival) => slice::from_ref(arrival),
            Came::Several(arrivals) => arrivals.as_slice(),
        }
    }

    /// The message that `which` selects, if there is one.
    pub(crate) fn pick(&self, which: Which) -> Option<&Arrival>
        ensures { IsSeen (picked which (came_list self.now)) result }
    {
        let arrivals = self.as_slice();
        match which {
            Which::Last => arrivals.last(),
            Which::At(place) => arrivals.get(place),
        }
    }
}
