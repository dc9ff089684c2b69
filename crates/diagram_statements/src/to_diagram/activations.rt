//! Activations: they decide which arrow a `return` answers.
ghost use Rattle.std.specs.Prelude.{◌≡◌, [], None, false, OnOk};
ghost use Rattle.diagram_statements.specs.ToDiagram.Activations.{last_of, has_edge, activations_view, activated, deactivated, sent, answered, returned, Answers};

use std::alloc::{AllocError, Global};

/// The sender and the receiver of an arrow, by their places. None is the edge of the diagram.
#[derive(Clone, Copy, Debug)]
pub(crate) struct Ends {
    pub sender: Option<usize>,
    pub receiver: Option<usize>,
}

/// The arrows that a `return` may answer.
#[derive(Debug, Drop)]
pub(crate) struct Activations {
    /// The arrows of the open activations, the innermost last.
    pub activating: Vec<Ends>,
    /// The last arrow, unless a group ended after it.
    pub last: Option<Ends>,
    pub arrows_activate: bool,
}

fn last_of(ends: &[Ends]) -> Option<Ends>
    ensures { result ≡ last_of ends.now }
{
    match ends {
        [] => None,
        [.., last] => Some(*last),
    }
}

fn has_edge(ends: Ends) -> bool
    ensures { result ≡ has_edge ends }
{
    ends.sender.is_none() || ends.receiver.is_none()
}

impl Activations {
    pub(crate) fn new(alloc: Global) -> Activations
        ensures { activations_view result ≡ record { activating = []; last = None; arrows_activate = false } }
    {
        Activations {
            activating: Vec::new(alloc),
            last: None,
            arrows_activate: false,
        }
    }

    /// The last arrow activates its receiver.
    #[tactic(auto, unfolding(crate::specs::ToDiagram::Activations::activated))]
    pub(crate) fn activate(&mut self) -> Result<(), AllocError>
        ensures { OnOk result (activations_view self.new ≡ activated (activations_view self.old)) }
    {
        if let Some(last) = self.last {
            self.activating.push(last)?;
        }
        Ok(())
    }

    /// Ends the innermost activation.
    #[tactic(auto, unfolding(crate::specs::ToDiagram::Activations::deactivated))]
    pub(crate) fn deactivate(&mut self)
        ensures { activations_view self.new ≡ deactivated (activations_view self.old) }
    {
        let _ = self.activating.pop();
    }

    /// An arrow becomes the last one. It may activate, or end an activation.
    #[tactic(auto, unfolding(crate::specs::ToDiagram::Activations::sent))]
    pub(crate) fn send(&mut self, ends: Ends, activates: Option<bool>) -> Result<(), AllocError>
        ensures { OnOk result (activations_view self.new ≡ sent ends activates (activations_view self.old)) }
    {
        self.last = Some(ends);
        if !self.arrows_activate {
            return Ok(());
        }
        match activates {
            Some(true) => self.activate(),
            Some(false) => {
                self.deactivate();
                Ok(())
            }
            None => Ok(()),
        }
    }

    /// The arrow that a `return` answers: that of the innermost activation, or otherwise the last one, unless that is
    /// at the edge.
    #[tactic(auto, unfolding(crate::specs::ToDiagram::Activations::answered))]
    fn answered(&self) -> Option<Ends>
        ensures { result ≡ answered (activations_view self.now) }
    {
        match last_of(&self.activating) {
            Some(ends) => Some(ends),
            None => match self.last {
                Some(ends) if !has_edge(ends) => Some(ends),
                _ => None,
            },
        }
    }

    /// The arrow of a `return`: it goes back along the one that it answers, whose activation ends.
    #[tactic(auto, unfolding(crate::specs::ToDiagram::Activations::returned))]
    pub(crate) fn give_back(&mut self) -> Option<Ends>
        ensures { Answers result (activations_view self.new) (returned (activations_view self.old)) }
    {
        let Some(ends) = self.answered() else {
            return None;
        };
        let back = Ends {
            sender: ends.receiver,
            receiver: ends.sender,
        };
        self.last = Some(back);
        self.deactivate();
        Some(back)
    }
}
