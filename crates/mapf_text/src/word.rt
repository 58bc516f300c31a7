//! How a line of a map or a scenario is cut into words, for the readers of both.
ghost use Rattle.std.specs.Prelude.{◌≡◌, ◌==◌, ◌<◌, ℕ, List, [], ◌∷◌, length, not, IfSome, MatchOption};
ghost use Rattle.std.specs.List.{position_from};
ghost use Rattle.mapf_text.specs.Words.{is_blank, is_blank_line, words_of};

fn is_blank(byte: u8) -> bool
    ensures { result ≡ is_blank byte }
{
    byte == b' ' || byte == b'\t'
}

/// Returns whether a line has only blanks.
pub fn is_blank_line(line: &[u8]) -> bool
    ensures { result ≡ is_blank_line line.now }
{
    line.iter().all(|byte| is_blank(*byte))
}

/// Returns the first word of a line, and the line after it. None if the line is blank.
pub fn next_word(line: &[u8]) -> Option<(&[u8], &[u8])>
    ensures { MatchOption result (words_of line.now ≡ []) (λ p. words_of line.now ≡ p.0.now ∷ words_of p.1.now) }
{
    let Some(start) = first_filled(line) else {
        return None;
    };
    let filled = &line[start..];
    let end = first_blank(filled).unwrap_or(filled.len());
    Some(filled.split_at(end))
}

// Returns the index of the first byte that isn't a blank.
fn first_filled(line: &[u8]) -> Option<usize>
    ensures place { result ≡ position_from (λ b. not (is_blank b)) 0 line.now }
    ensures within { IfSome result (λ at. at < length line.now) }
{
    line.iter().position(|byte| !is_blank(*byte))
}

// Returns the index of the first blank.
fn first_blank(line: &[u8]) -> Option<usize>
    ensures place { result ≡ position_from is_blank 0 line.now }
    ensures within { IfSome result (λ at. at < length line.now) }
{
    line.iter().position(|byte| is_blank(*byte))
}

/// Returns the word of a line of exactly one.
pub fn one_word(line: &[u8]) -> Option<&[u8]>
    ensures { MatchOption result ((word : List ℕ) → words_of line.now ≡ word ∷ [] → ⊥)
        (λ word. words_of line.now ≡ word.now ∷ []) }
{
    let (word, rest) = next_word(line)?;
    if next_word(rest).is_some() {
        return None;
    }
    Some(word)
}

/// Returns the words of a line of exactly two.
pub fn two_words(line: &[u8]) -> Option<(&[u8], &[u8])>
    ensures { MatchOption result ((first second : List ℕ) → words_of line.now ≡ first ∷ second ∷ [] → ⊥)
        (λ p. words_of line.now ≡ p.0.now ∷ p.1.now ∷ []) }
{
    let (first, rest) = next_word(line)?;
    let second = one_word(rest)?;
    Some((first, second))
}
