//! Which version of the library this is.
ghost use Rattle.std.specs.Prelude.{◌≡◌};
ghost use Rattle.art_c.specs.Version.{ART_VERSION};

/// The version of the header that the library is built with: 10,000 for each major one, 100 for each minor one.
#[unsafe(no_mangle)]
pub extern "C" fn art_version() -> u32
    ensures version { result ≡ ART_VERSION }
{
    200
}
