//! The release

ghost use Rattle.std.specs.Prelude.{◌≡◌};
ghost use Rattle.p25_c.specs.Version.{release_number};

// The numbers of the release: 1.1 is 1, 1 and 0. The file RELEASE says it too, and bindings/test compares the two.
const MAJOR: u32 = 1;

const MINOR: u32 = 1;

const PATCH: u32 = 0;

/// Returns the release of the library: 10000 times its first number, 100 times its second number, and its third number. Release
/// 1.1 is 10100.
#[unsafe(no_mangle)]
pub extern "C" fn p25_version() -> u32
    ensures { result ≡ release_number 1 1 0 }
{
    10_000 * MAJOR + 100 * MINOR + PATCH
}
