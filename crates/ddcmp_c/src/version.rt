//! The version of the library.
ghost use Rattle.std.specs.Prelude.{◌≡◌};

/// Returns the version as one number: major * 10000 + minor * 100 + patch.
#[unsafe(no_mangle)]
pub extern "C" fn ddcmp_version() -> u32
    ensures { result ≡ 200 }
{
    200
}
