//! Which words are decimal text, for the length in a row of a scenario.
ghost use Rattle.std.specs.Prelude.{◌≡◌, ◌↔◌, ◌<◌, [], IsTrue, Some, IfSome, length, not, option_map};
ghost use Rattle.std.specs.Char.{is_ascii_digit};
ghost use Rattle.std.specs.List.{position_from};
ghost use Rattle.mapf_text.specs.Decimals.{IsDecimal, after_sign, drop_digits, after_digits};
ghost use Rattle.mapf_text.specs.Decimals.{after_fraction, after_exponent, after_decimal};

/// Returns whether a word is decimal text: an optional sign, digits, optionally a point and digits, and optionally `e`
/// or `E`, an optional sign and digits.
pub fn is_decimal(word: &[u8]) -> bool
    ensures { IsTrue result ↔ IsDecimal word.now }
{
    match after_decimal(word) {
        Some(rest) => rest.is_empty(),
        None => false,
    }
}

// Returns what follows the longest decimal text.
#[tactic(auto, unfolding(crate::specs::Decimals::after_decimal))]
fn after_decimal(text: &[u8]) -> Option<&[u8]>
    ensures { option_map (λ rest. rest.now) result ≡ after_decimal text.now }
{
    let text = after_digits(after_sign(text))?;
    let text = after_fraction(text)?;
    after_exponent(text)
}

fn after_sign(text: &[u8]) -> &[u8]
    ensures { result.now ≡ after_sign text.now }
{
    match text {
        [b'+' | b'-', rest @ ..] => rest,
        _ => text,
    }
}

fn after_fraction(text: &[u8]) -> Option<&[u8]>
    ensures { option_map (λ rest. rest.now) result ≡ after_fraction text.now }
{
    match text {
        [b'.', rest @ ..] => after_digits(rest),
        _ => Some(text),
    }
}

fn after_exponent(text: &[u8]) -> Option<&[u8]>
    ensures { option_map (λ rest. rest.now) result ≡ after_exponent text.now }
{
    match text {
        [b'e' | b'E', rest @ ..] => after_digits(after_sign(rest)),
        _ => Some(text),
    }
}

// Returns what follows one or more digits.
fn after_digits(text: &[u8]) -> Option<&[u8]>
    ensures { option_map (λ rest. rest.now) result ≡ after_digits text.now }
{
    match text {
        [first, rest @ ..] if first.is_ascii_digit() => Some(drop_digits(rest)),
        _ => None,
    }
}

// Returns what follows the leading digits.
fn drop_digits(text: &[u8]) -> &[u8]
    ensures { result.now ≡ drop_digits text.now }
{
    match first_no_digit(text) {
        Some(at) => &text[at..],
        None => &[],
    }
}

// Returns the index of the first byte that isn't a digit.
fn first_no_digit(text: &[u8]) -> Option<usize>
    ensures place { result ≡ position_from (λ b. not (is_ascii_digit b)) 0 text.now }
    ensures within { IfSome result (λ at. at < length text.now) }
{
    text.iter().position(|byte| !byte.is_ascii_digit())
}
