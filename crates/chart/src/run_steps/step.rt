//! The steps of a run.
ghost use Rattle.std.specs.Prelude.{◌≡◌};
ghost use Rattle.chart.specs.RunSteps.Steps.{maker_of, step_made, outside_regions};

use crate::{Event, InstanceNo, Name};

/// What an instance does in a run: it sends a message of this name, or receives the first message that waits.
#[derive(Clone, Copy, Debug, PartialEq, Eq)]
pub enum Step {
    Send {
        from: InstanceNo,
        to: InstanceNo,
        name: Name,
    },
    Receive {
        at: InstanceNo,
        from: InstanceNo,
        /// The coregion that the receive is in, or 0 outside of a coregion.
        region: u32,
    },
}

impl Step {
    /// The step by which an instance makes an event.
    pub fn of(maker: InstanceNo, event: &Event) -> Step
        ensures { result ≡ step_made maker event.now }
    {
        match event {
            Event::Send { to, name } => Step::Send {
                from: maker,
                to: *to,
                name: *name,
            },
            Event::Receive { from, region, .. } => Step::Receive {
                at: maker,
                from: *from,
                region: *region,
            },
        }
    }

    /// The instance whose step it is.
    pub fn maker(&self) -> InstanceNo
        ensures { result ≡ maker_of self.now }
    {
        match self {
            Step::Send { from, .. } => *from,
            Step::Receive { at, .. } => *at,
        }
    }

    /// The step outside of coregions.
    pub fn outside_regions(&self) -> Step
        ensures { result ≡ outside_regions self.now }
    {
        match self {
            Step::Send { .. } => *self,
            Step::Receive { at, from, .. } => Step::Receive {
                at: *at,
                from: *from,
                region: 0,
            },
        }
    }
}
