//! Sending, and receiving with races.
ghost use Rattle.std.specs.Prelude.{◌≡◌};

use anyhow::bail;
use board::{Post, Taken};
use chart::{InstanceNo, Message, Name};
use std::alloc::Global;

/// A message of this name with an empty body.
pub fn message(alloc: Global, name: &[u8]) -> anyhow::Result<Message> {
    match Message::new(Name::new(name)?, Vec::new(alloc)) {
        Ok(message) => Ok(message),
        Err(_) => bail!("a body has at most 4,096 bytes"),
    }
}

/// The instance of this number.
pub fn instance(number: usize) -> anyhow::Result<InstanceNo> {
    match InstanceNo::new(number) {
        Some(instance) => Ok(instance),
        None => bail!("instances are numbered from 1 to 32"),
    }
}

/// Sends a message of this name to an instance.
pub fn send_by(alloc: Global, post: &mut Post, to: usize, name: &[u8]) -> anyhow::Result<()>
    ensures { post.new.board ≡ post.old.board }
{
    match post.send(instance(to)?, message(alloc, name)?) {
        Ok(_) => Ok(()),
        Err((_, error)) => bail!("not sent: {error}"),
    }
}

/// Receives from an instance, and prints the receive's races as soon as the message is there.
pub fn receive_by<R: Print>(rt: &R, post: &mut Post, from: usize) -> anyhow::Result<()>
    ensures { post.new.board ≡ post.old.board }
{
    match post.receive(instance(from)?)? {
        Taken::Got(arrival) => {
            let receive = arrival.report.receive().index;
            for earlier in arrival.report.earlier().iter() {
                println!(rt;
                    "instance {}: event {} may as well come after {receive}",
                    earlier.instance.number(),
                    earlier.index
                )?;
            }
        }
        Taken::Nothing => println!(rt; "nothing waits yet")?,
        Taken::Ended => println!(rt; "nothing waits, and nothing more comes")?,
    }
    Ok(())
}
