//! The three parties, and the messages that they write.
ghost use Rattle.std.specs.Prelude.{◌≡◌};

use anyhow::bail;
use chart::{InstanceNo, Message, Name};
use std::alloc::Global;

/// The number of requests of the client.
pub const REQUESTS: u32 = 3;

/// The most times that the server looks for a request, and that any of them looks for a message.
pub const PATIENCE: u32 = 100_000;

/// The number of slots of a lane. There are never as many messages on their way, so no lane is full.
pub const SLOTS: usize = 8;

pub fn client() -> InstanceNo
    ensures { result ≡ 1 }
{
    InstanceNo::at_place(0)
}

pub fn server() -> InstanceNo
    ensures { result ≡ 2 }
{
    InstanceNo::at_place(1)
}

pub fn logger() -> InstanceNo
    ensures { result ≡ 3 }
{
    InstanceNo::at_place(2)
}

/// A message with this name, whose body has the number of its request.
pub fn message(alloc: Global, name: &[u8], request: u32) -> anyhow::Result<Message> {
    let body = format!(in alloc; "request {request}")?.into_bytes();
    match Message::new(Name::new(name)?, body) {
        Ok(message) => Ok(message),
        Err(_) => bail!("a body has at most 4,096 bytes"),
    }
}
