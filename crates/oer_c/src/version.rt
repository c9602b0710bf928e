//! The version of the library.
ghost use Rattle.std.specs.Prelude.{◌≡◌};

/// The version of the library, as 10,000 times the major number, 100 times the minor one and the
/// patch: 100 is 0.1.0. `OER_VERSION_NUMBER` of the header is that of the header.
#[unsafe(no_mangle)]
pub extern "C" fn oer_version() -> u32
    ensures { result ≡ 100 }
{
    100
}
