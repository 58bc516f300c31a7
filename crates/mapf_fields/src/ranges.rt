//! Whether a number that was read is in its range, for the readers of plan texts, certificates and event texts.
ghost use Rattle.std.specs.Prelude.{◌≡◌};
ghost use Rattle.mapf_fields.specs.Numbers.{in_range, below};

use crate::fault::LineFault;

/// Returns the number if it is at least `least` and at most `most`. `LineFault::Range` for any other, and for None,
/// which means 2^64 or more.
pub fn within(least: u64, most: u64, number: Option<u64>) -> Result<u64, LineFault>
    ensures { result ≡ in_range least most number }
{
    match number {
        Some(n) if least <= n && n <= most => Ok(n),
        _ => Err(LineFault::Range),
    }
}

/// Returns the number if it is at most `most`. `LineFault::Range` for any other, and for None, which means 2^64 or
/// more.
pub fn up_to(most: u32, number: Option<u64>) -> Result<u32, LineFault>
    ensures { result ≡ in_range 0 most number }
{
    match number {
        Some(n) if n <= most as u64 => Ok(n as u32),
        _ => Err(LineFault::Range),
    }
}

/// Returns the number if it is at least 1 and at most `most`. `LineFault::Range` for any other, and for None, which
/// means 2^64 or more.
pub fn from_one_to(most: u32, number: Option<u64>) -> Result<u32, LineFault>
    ensures { result ≡ in_range 1 most number }
{
    match number {
        Some(n) if 1 <= n && n <= most as u64 => Ok(n as u32),
        _ => Err(LineFault::Range),
    }
}

/// Returns the number if it is below `bound`. `LineFault::Range` for any other, and for None, which means 2^64 or more.
pub fn below(bound: u32, number: Option<u64>) -> Result<u32, LineFault>
    ensures { result ≡ below bound number }
{
    match number {
        Some(n) if n < bound as u64 => Ok(n as u32),
        _ => Err(LineFault::Range),
    }
}
