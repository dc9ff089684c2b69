//! The library's version.
ghost use Rattle.std.specs.Prelude.{◌≡◌};
ghost use Rattle.msc.specs.Version.{library_version};

/// The parts of the file `VERSION`.
const MAJOR: u32 = 1;

const MINOR: u32 = 0;

const PATCH: u32 = 0;

/// The version as one number: major × 10,000 + minor × 100 + patch.
#[unsafe(no_mangle)]
pub extern "C" fn msc_version() -> u32
    ensures { result ≡ library_version }
{
    MAJOR * 10000 + MINOR * 100 + PATCH
}
