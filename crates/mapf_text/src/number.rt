//! How a number in a map or a scenario is read: with leading zeros too, unlike in the project's own texts.
ghost use Rattle.std.specs.Prelude.{◌≡◌, ◌↔◌, IsTrue};
ghost use Rattle.std.specs.Char.{is_ascii_digit};
ghost use Rattle.std.specs.List.{list_all};
ghost use Rattle.mapf_text.specs.Numbers.{AreDigits, NumberOf};

/// Why a word isn't a number of 32 bits.
#[derive(Clone, Copy, Debug, PartialEq, Eq)]
pub enum NotNumber {
    /// It isn't one or more digits.
    NoDigits,
    /// The number is 4,294,967,296 or more.
    TooLarge,
}

/// Reads the number that a word spells: one or more digits, with or without leading zeros.
pub fn read_number(word: &[u8]) -> Result<u32, NotNumber>
    ensures { NumberOf word.now result }
{
    if !are_digits(word) {
        return Err(NotNumber::NoDigits);
    }
    let Ok(text) = str::from_utf8(word) else {
        return Err(NotNumber::NoDigits);
    };
    match text.parse::<u32>() {
        Ok(n) => Ok(n),
        Err(_) => Err(NotNumber::TooLarge),
    }
}

// Returns whether a word is one or more digits.
fn are_digits(word: &[u8]) -> bool
    ensures { IsTrue result ↔ AreDigits word.now }
{
    !word.is_empty() && has_digits_alone(word)
}

fn has_digits_alone(word: &[u8]) -> bool
    ensures { result ≡ list_all is_ascii_digit word.now }
{
    word.iter().all(|byte| byte.is_ascii_digit())
}
