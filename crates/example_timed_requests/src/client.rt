//! The client tells the logger of each request, asks the server and waits for the answer.
ghost use Rattle.std.specs.Prelude.{◌≡◌};
ghost use Rattle.example_timed_requests.specs.Clients.{client_step};

use crate::letters::Letters;
use behaviour::{Act, Answer, Behaviour};
use chart::InstanceNo;

/// The steps of the client.
#[derive(Clone, Copy, Debug, PartialEq, Eq)]
pub enum ClientStep {
    /// Tell the logger of the next request. If there is none, close the lane to the server.
    Tell,
    /// Ask the server.
    Ask,
    /// Wait for the answer.
    Wait,
    /// Close the lane to the logger.
    Leave,
    Stop,
}

impl ClientStep {
    /// The step after this answer. A refusal or an end makes the client leave.
    fn after(self, last: &Answer) -> ClientStep
        ensures { result ≡ client_step self last.now }
    {
        match self {
            ClientStep::Tell => match last {
                Answer::Start => ClientStep::Tell,
                Answer::Sent(_) => ClientStep::Ask,
                _ => ClientStep::Leave,
            },
            ClientStep::Ask => match last {
                Answer::Sent(_) => ClientStep::Wait,
                _ => ClientStep::Leave,
            },
            ClientStep::Wait => match last {
                Answer::Nothing => ClientStep::Wait,
                Answer::Got(_) => ClientStep::Tell,
                _ => ClientStep::Leave,
            },
            ClientStep::Leave | ClientStep::Stop => ClientStep::Stop,
        }
    }
}

/// The client. It has two letters for each request: one for the logger and one for the server.
#[derive(Drop)]
pub struct Client {
    pub server: InstanceNo,
    pub logger: InstanceNo,
    pub letters: Letters,
    pub step: ClientStep,
}

impl Behaviour for Client {
    ghost use Rattle.example_timed_requests.specs.Clients.{client_step, client_act, client_left};

    ghost act = { λ client last. client_act (client_step client.step last) client.letters client.server client.logger };

    ghost after = { λ client last. record client {
      step = client_step client.step last;
      letters = client_left (client_step client.step last) client.letters;
    } };

    fn next(&mut self, last: &Answer) -> Act {
        self.step = self.step.after(last);
        match self.step {
            ClientStep::Tell | ClientStep::Ask => self.letters.send_first(self.server),
            ClientStep::Wait => Act::Receive(self.server),
            ClientStep::Leave => Act::Close(self.logger),
            ClientStep::Stop => Act::Stop,
        }
    }
}
