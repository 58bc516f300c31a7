//! How a number is read from the front of bytes, for the readers of plan texts, certificates and event texts.
ghost use Rattle.std.specs.Char.{is_ascii_digit};
ghost use Rattle.std.specs.Prelude.{◌≡◌, length, option_map, slice_index};
ghost use Rattle.mapf_fields.specs.Numbers.{Gives, strip, begins_well, small_value, front_digits, read_number};
ghost use Rattle.mapf_fields.specs.Numbers.{read_field, read_last, read_pair, read_whole};

use crate::fault::LineFault;

/// Returns what follows this prefix if the bytes begin with it, else None.
pub fn strip<'a>(bytes: &'a [u8], front: &[u8]) -> Option<&'a [u8]>
    ensures { option_map (λ r. r.now) result ≡ strip front.now bytes.entry.now }
{
    bytes.strip_prefix(front)
}

// Returns whether the word isn't empty and has no leading zero: it has one byte, or its first byte isn't `0`.
#[inline(always)]
fn begins_well(word: &[u8]) -> bool
    ensures { result ≡ begins_well word.now }
{
    match word {
        [] => false,
        [_] => true,
        [first, ..] => *first != b'0',
    }
}

// Returns how many digits bytes begin with.
fn digit_count(bytes: &[u8]) -> usize
    ensures { result ≡ length (front_digits bytes.now) }
{
    bytes.iter().take_while(|b| b.is_ascii_digit()).count()
}

// Reads the digits that bytes begin with, in one pass. Returns the number that they spell, None from 2^64 on, and how
// many digits there are.
#[inline(always)]
fn digits(bytes: &[u8]) -> (Option<u64>, usize)
    ensures value { result.0 ≡ small_value (front_digits bytes.now) }
    ensures count { result.1 ≡ length (front_digits bytes.now) }
{
    let mut value = 0u64;
    for (i, byte) in bytes.iter().enumerate() {
        if !byte.is_ascii_digit() {
            return (Some(value), i);
        }
        let units = u64::from(*byte - b'0');
        let Some(tens) = value.checked_mul(10) else {
            return (None, digit_count(bytes));
        };
        let Some(more) = tens.checked_add(units) else {
            return (None, digit_count(bytes));
        };
        value = more;
    }
    (Some(value), bytes.len())
}

// Returns whether bytes begin with a digit.
#[inline(always)]
fn begins_with_digit(bytes: &[u8]) -> bool
    ensures { result ≡ is_ascii_digit (slice_index bytes.now 0) }
{
    match bytes {
        [byte, ..] => byte.is_ascii_digit(),
        [] => false,
    }
}

// Reads the number that bytes begin with, whatever the count of its digits. Returns it, None from 2^64 on, and what
// follows.
#[tactic(auto, unfolding(crate::specs::Numbers::read_number))]
#[inline(never)]
fn long_number(bytes: &[u8]) -> Result<(Option<u64>, &[u8]), LineFault>
    ensures { Gives (λ p. (p.0, p.1.now)) result (read_number bytes.entry.now) }
{
    let (value, count) = digits(bytes);
    let (word, rest) = bytes.split_at(count);
    if begins_well(word) {
        Ok((value, rest))
    } else {
        Err(LineFault::Shape)
    }
}

// Reads the number that bytes begin with. Returns it, None from 2^64 on, and what follows. Nearly all numbers have one
// to three digits, and these are read without a loop.
#[inline(always)]
fn number(bytes: &[u8]) -> Result<(Option<u64>, &[u8]), LineFault>
    ensures { Gives (λ p. (p.0, p.1.now)) result (read_number bytes.entry.now) }
{
    match bytes {
        [digit, rest @ ..] if digit.is_ascii_digit() && !begins_with_digit(rest) => {
            Ok((Some(u64::from(*digit - b'0')), rest))
        }
        [tens, units, rest @ ..]
            if begins_well(&bytes[..2])
                && tens.is_ascii_digit()
                && units.is_ascii_digit()
                && !begins_with_digit(rest) => {
            let number = u64::from(*tens - b'0') * 10 + u64::from(*units - b'0');
            Ok((Some(number), rest))
        }
        [hundreds, tens, units, rest @ ..]
            if begins_well(&bytes[..3])
                && hundreds.is_ascii_digit()
                && tens.is_ascii_digit()
                && units.is_ascii_digit()
                && !begins_with_digit(rest) => {
            let front = u64::from(*hundreds - b'0') * 10 + u64::from(*tens - b'0');
            Ok((Some(front * 10 + u64::from(*units - b'0')), rest))
        }
        _ => long_number(bytes),
    }
}

/// Reads the separator `mark` and the number, without leading zeros, that bytes begin with. Returns the number, None
/// from 2^64 on, and what follows. `LineFault::Shape` if the bytes don't begin so.
#[tactic(auto, unfolding(crate::specs::Numbers::read_field))]
#[inline(always)]
pub fn field(mark: u8, bytes: &[u8]) -> Result<(Option<u64>, &[u8]), LineFault>
    ensures { Gives (λ p. (p.0, p.1.now)) result (read_field mark bytes.entry.now) }
{
    match bytes {
        [first, rest @ ..] if *first == mark => number(rest),
        _ => Err(LineFault::Shape),
    }
}

/// Reads a number without leading zeros, with nothing before or after it. Returns it, None from 2^64 on.
/// `LineFault::Shape` if the bytes are no such number.
#[tactic(auto, unfolding(crate::specs::Numbers::read_whole))]
#[inline(always)]
pub fn whole(bytes: &[u8]) -> Result<Option<u64>, LineFault>
    ensures { result ≡ read_whole bytes.now }
{
    let (number, rest) = number(bytes)?;
    if rest.is_empty() {
        Ok(number)
    } else {
        Err(LineFault::Shape)
    }
}

/// Reads the separator `mark` and a number without leading zeros, with nothing after it. Returns the number, None from
/// 2^64 on. `LineFault::Shape` if the bytes aren't so.
#[tactic(auto, unfolding(crate::specs::Numbers::read_last))]
#[inline(always)]
pub fn last(mark: u8, bytes: &[u8]) -> Result<Option<u64>, LineFault>
    ensures { result ≡ read_last mark bytes.now }
{
    match bytes {
        [first, rest @ ..] if *first == mark => whole(rest),
        _ => Err(LineFault::Shape),
    }
}

/// Reads the column after a blank and the row after a comma that bytes begin with, both without leading zeros. Returns
/// them, each None from 2^64 on, and what follows. `LineFault::Shape` if the bytes don't begin so.
#[tactic(auto, unfolding(crate::specs::Numbers::read_pair))]
#[inline(always)]
pub fn pair(bytes: &[u8]) -> Result<(Option<u64>, Option<u64>, &[u8]), LineFault>
    ensures { Gives (λ p. (p.0, p.1, p.2.now)) result (read_pair bytes.entry.now) }
{
    let (x, rest) = field(b' ', bytes)?;
    let (y, rest) = field(b',', rest)?;
    Ok((x, y, rest))
}
