//! The places of bytes in a text.
ghost use Rattle.std.specs.Prelude.{◌≡◌, ◌≤◌, ◌<◌, ◌+◌, ◌^◌, length};
ghost use Rattle.texts.specs.Bytes.Places.{behind, behind_byte};

/// The place of a byte in a text.
#[derive(Clone, Copy, Debug, PartialEq, Eq)]
pub struct Place {
    /// From 1.
    pub line: u64,
    /// In bytes, from 1.
    pub column: u64,
}

/// The place at which a text begins.
pub const START: Place = Place { line: 1, column: 1 };

const _: () = prove!(START.line == 1 && START.column == 1);

impl Place {
    /// The place after a byte that is at this place.
    fn behind_byte(self, byte: u8) -> Place
        requires line { self.line + 1 < 2 ^ 64 }
        requires column { self.column + 1 < 2 ^ 64 }
        ensures { result ≡ behind_byte self byte }
    {
        if byte == b'\n' {
            Place {
                line: self.line + 1,
                column: 1,
            }
        } else {
            Place {
                line: self.line,
                column: self.column + 1,
            }
        }
    }

    /// The place after these bytes, the first of which is at this place.
    #[tactic(auto, using(crate::proofs::BytesLemmas::ByteLoops::behind_next, crate::proofs::BytesLemmas::ByteLoops::behind_all))]
    pub fn behind(self, bytes: &[u8]) -> Place
        requires line { self.line + length bytes.now < 2 ^ 64 }
        requires column { self.column + length bytes.now < 2 ^ 64 }
        ensures place { result ≡ behind self bytes.now }
        ensures line { result.line ≤ self.line + length bytes.now }
        ensures column { result.column ≤ self.column + length bytes.now }
    {
        let mut place = self;
        for byte in bytes {
            place = place.behind_byte(*byte);
        }
        place
    }
}
