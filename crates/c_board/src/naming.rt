//! The name given to a post's last send.
ghost use Rattle.std.specs.Prelude.{◌≡◌, Err, IfErr, OnOk};
ghost use Rattle.chart.specs.Names.{IsName, name_of};

use chart::{MAX_NAME, Name, NameError};
use std::marker::Model;

/// Any name, for a post that has sent none.
fn any_name() -> Name {
    match Name::new(b"a") {
        Ok(name) => name,
        Err(_) => unreachable!(),
    }
}

/// A name with a copy of its bytes. A contract sees the name.
#[derive(Drop)]
pub(crate) struct Known {
    pub(crate) name: Name,
    length: usize,
    /// The bytes of the name, followed by any bytes.
    text: [u8; MAX_NAME],
}

impl Model for Known {
    ghost use Rattle.std.specs.Prelude.{◌≡◌, ◌≤◌, ℕ, List, take};
    ghost use Rattle.chart.specs.declared.name.TheConstants.{MAX_NAME};

    ghost Value = { List ℕ };

    ghost view = { λ known. known.name };

    ghost invariant = { λ known. (take known.length known.text ≡ known.name) × (known.length ≤ MAX_NAME) };
}

impl Known {
    /// This name.
    fn of(name: Name) -> Known
        ensures { result ≡ name }
    {
        let held = name.as_bytes();
        let mut text = [0; MAX_NAME];
        text[..held.len()].copy_from_slice(held);
        Known {
            name,
            length: held.len(),
            text,
        }
    }

    /// Any name, for a post that has sent none.
    pub(crate) fn any() -> Known {
        Known::of(any_name())
    }

    /// Makes the name with these bytes the known one. The first of F1 to F4 that applies refuses it.
    ///
    /// Most posts send messages with few names. So the bytes are first compared with the known name. They are checked
    /// one by one only if they differ from it.
    #[inline(always)]
    pub(crate) fn know(&mut self, bytes: &[u8]) -> Result<(), NameError>
        ensures ok { OnOk result ((self.new ≡ bytes.now) × IsName bytes.now) }
        ensures err { IfErr result (λ error. name_of bytes.now ≡ Err error) }
    {
        if self.length == bytes.len() && &self.text[..self.length] == bytes {
            return Ok(());
        }
        self.learn(bytes)
    }

    /// Makes the name with these bytes, which isn't the known one, the known one. The first of F1 to F4 that applies
    /// refuses it.
    #[inline(never)]
    fn learn(&mut self, bytes: &[u8]) -> Result<(), NameError>
        ensures ok { OnOk result ((self.new ≡ bytes.now) × IsName bytes.now) }
        ensures err { IfErr result (λ error. name_of bytes.now ≡ Err error) }
    {
        match Name::new(bytes) {
            Ok(name) => {
                *self = Known::of(name);
                Ok(())
            }
            Err(error) => Err(error),
        }
    }
}
