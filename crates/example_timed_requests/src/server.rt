//! The server waits for a request, tells the logger of it and answers. It gives up if none comes for long.
ghost use Rattle.std.specs.Prelude.{◌≡◌};
ghost use Rattle.example_timed_requests.specs.Servers.{server_step, turns_left};

use crate::letters::Letters;
use behaviour::{Act, Answer, Behaviour};
use chart::InstanceNo;

/// The steps of the server.
#[derive(Clone, Copy, Debug, PartialEq, Eq)]
pub enum ServerStep {
    /// Wait for a request.
    Wait,
    /// Tell the logger of the request.
    Tell,
    /// Answer the client.
    Reply,
    /// Close the lane to the client.
    LeaveClient,
    /// Close the lane to the logger.
    LeaveLogger,
    Stop,
}

impl ServerStep {
    /// The step after this answer. A refusal or an end makes the server leave. If nothing came, it leaves if it is too
    /// late to wait.
    fn after(self, last: &Answer, is_late: bool) -> ServerStep
        ensures { result ≡ server_step self last.now is_late }
    {
        match self {
            ServerStep::Wait => match last {
                Answer::Start => ServerStep::Wait,
                Answer::Nothing => if is_late {
                    ServerStep::LeaveClient
                } else {
                    ServerStep::Wait
                },
                Answer::Got(_) => ServerStep::Tell,
                _ => ServerStep::LeaveClient,
            },
            ServerStep::Tell => match last {
                Answer::Sent(_) => ServerStep::Reply,
                _ => ServerStep::LeaveClient,
            },
            ServerStep::Reply => match last {
                Answer::Sent(_) => ServerStep::Wait,
                _ => ServerStep::LeaveClient,
            },
            ServerStep::LeaveClient => ServerStep::LeaveLogger,
            ServerStep::LeaveLogger | ServerStep::Stop => ServerStep::Stop,
        }
    }
}

/// The server. It has two letters for each request: one for the logger and one for the client. It gives up if nothing
/// comes for as many turns as its patience lasts.
#[derive(Drop)]
pub struct Server {
    pub client: InstanceNo,
    pub logger: InstanceNo,
    pub letters: Letters,
    pub patience: u32,
    /// The number of turns that it still waits.
    pub left: u32,
    pub step: ServerStep,
}

impl Server {
    /// The number of turns that it still waits after this answer.
    fn left_after(&self, last: &Answer) -> u32
        ensures { result ≡ turns_left self.now.patience self.now.left last.now }
    {
        match last {
            Answer::Nothing => self.left.saturating_sub(1),
            _ => self.patience,
        }
    }
}

impl Behaviour for Server {
    ghost use Rattle.example_timed_requests.specs.Servers.{step_after, turns_left, server_act, server_left};

    ghost act = { λ server last.
        server_act (step_after server.step last server.patience server.left)
        server.letters server.client server.logger };

    ghost after = { λ server last. record server {
      letters = server_left (step_after server.step last server.patience server.left) server.letters;
      left = turns_left server.patience server.left last;
      step = step_after server.step last server.patience server.left;
    } };

    fn next(&mut self, last: &Answer) -> Act {
        self.left = self.left_after(last);
        self.step = self.step.after(last, self.left == 0);
        match self.step {
            ServerStep::Wait => Act::Receive(self.client),
            ServerStep::Tell | ServerStep::Reply => self.letters.send_first(self.client),
            ServerStep::LeaveClient => Act::Close(self.client),
            ServerStep::LeaveLogger => Act::Close(self.logger),
            ServerStep::Stop => Act::Stop,
        }
    }
}
