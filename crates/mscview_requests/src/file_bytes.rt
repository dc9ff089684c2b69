//! The bytes of a file.
ghost use Rattle.std.specs.Prelude.{◌≡◌};
ghost use Rattle.mscview_requests.specs.FileBytes.{bytes_of};

/// The bytes of a file: read from it, or lent by a program that has them in memory.
#[derive(Drop)]
pub enum FileBytes<'a> {
    Read(Vec<u8>),
    Lent(&'a [u8]),
}

impl FileBytes<'_> {
    /// The bytes.
    pub fn as_slice(&self) -> &[u8]
        ensures { result.now ≡ bytes_of self.now }
    {
        match self {
            FileBytes::Read(bytes) => bytes.as_slice(),
            FileBytes::Lent(bytes) => *bytes,
        }
    }
}
