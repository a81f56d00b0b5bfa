//! The version of the library.
ghost use Rattle.std.specs.Prelude.{◌≡◌};

/// The version, as 65536 times its first number, 256 times its second, and its third.
pub const VERSION: u32 = 0x00_01_00;

/// Tells the version of the library.
#[unsafe(no_mangle)]
pub extern "C" fn yimarotu_version() -> u32
    ensures { result ≡ VERSION }
{
    VERSION
}
