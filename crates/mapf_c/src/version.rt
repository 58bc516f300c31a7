//! Which version of the calls a program is linked with.
ghost use Rattle.std.specs.Prelude.{◌≡◌};

/// Returns the version of these calls: 1,000,000 times the first number, 1,000 times the second, and the third.
#[unsafe(no_mangle)]
pub extern "C" fn mapf_version() -> u32
    ensures { result ≡ 1001000 }
{
    1_001_000
}
