//! Messages.
ghost use Rattle.std.specs.Prelude.{◌≡◌, ◌≤◌, length, IsOk, IfOk, IfErr, ◌↔◌};
ghost use Rattle.chart.specs.declared.message.TheConstants.{MAX_BODY};

use crate::name::Name;
use std::marker::Model;

/// The most bytes in the body of a message.
pub const MAX_BODY: usize = 4096;

const _: () = prove!(MAX_BODY == 4096);

/// A message: a name, and a body of at most [`MAX_BODY`] bytes. A contract sees it as a record of both.
#[derive(Debug, Drop)]
pub struct Message {
    name: Name,
    body: Vec<u8>,
}

impl Model for Message {
    ghost use Rattle.std.specs.Prelude.{◌≤◌, length};
    ghost use Rattle.chart.specs.Messages.{Content};
    ghost use Rattle.chart.specs.declared.message.TheConstants.{MAX_BODY};

    ghost Value = { Content };

    ghost view = { λ m. record { name = m.name; body = m.body.items } };

    ghost invariant = { λ m. length m.body.items ≤ MAX_BODY };
}

impl Message {
    /// A message of this name and body. If the body has more than [`MAX_BODY`] bytes (F5), both come back.
    pub fn new(name: Name, body: Vec<u8>) -> Result<Message, (Name, Vec<u8>)>
        ensures short { IsOk result ↔ (length body.items ≤ MAX_BODY) }
        ensures ok { IfOk result (λ m. m ≡ record { name = name; body = body.items }) }
        ensures returned { IfErr result (λ parts. (parts.0 ≡ name) × (parts.1 ≡ body)) }
    {
        if body.len() > MAX_BODY {
            return Err((name, body));
        }
        Ok(Message { name, body })
    }

    #[inline(always)]
    pub fn name(&self) -> Name
        ensures { result ≡ self.now.name }
    {
        self.name
    }

    #[inline(always)]
    pub fn body(&self) -> &[u8]
        ensures value { result.now ≡ self.now.body }
        ensures short { length result.now ≤ MAX_BODY }
    {
        self.body.as_slice()
    }

    /// The name and the body.
    #[inline(always)]
    pub fn into_parts(self) -> (Name, Vec<u8>)
        ensures { (result.0 ≡ self.name) × (result.1.items ≡ self.body) }
    {
        let Message { name, body } = self;
        (name, body)
    }
}
