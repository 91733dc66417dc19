//! The version of the C interface.
ghost use Rattle.std.specs.Prelude.{◌≡◌};

/// The version of the header that belongs to this library, its `CHERI_CAP_VERSION`.
const VERSION: u32 = 1;

/// Returns the version of the header that belongs to this library.
#[unsafe(no_mangle)]
pub extern "C" fn cheri_cap_version() -> u32
    ensures { result ≡ 1 }
{
    VERSION
}
