//! How the text of a map or a scenario is cut into lines, for the readers of both.
ghost use Rattle.std.specs.Prelude.{◌≡◌, ◌==◌, ◌<◌, ◌^◌, [], ◌∷◌, length, IfSome, MatchOption};
ghost use Rattle.std.specs.List.{position_from};
ghost use Rattle.mapf_text.specs.Lines.{lines_of, without_return};

/// Returns the first line of a text without its line end, and the text after it. None at the end of the text.
pub fn next_line(text: &[u8]) -> Option<(&[u8], &[u8])>
    ensures lines { MatchOption result (lines_of text.now ≡ []) (λ p. lines_of text.now ≡ p.0.now ∷ lines_of p.1.now) }
    ensures shorter { IfSome result (λ p. length p.1.now < length text.now) }
    ensures small { length text.now < 2 ^ 63 }
{
    if text.is_empty() {
        return None;
    }
    match line_feed(text) {
        None => Some((without_return(text), &[])),
        Some(at) => Some((without_return(&text[..at]), &text[at + 1..])),
    }
}

// Returns the index of the first LF.
fn line_feed(text: &[u8]) -> Option<usize>
    ensures place { result ≡ position_from (λ b. b == 10) 0 text.now }
    ensures within { IfSome result (λ at. at < length text.now) }
{
    text.iter().position(|byte| *byte == b'\n')
}

// Returns a line without one CR at its end.
fn without_return(line: &[u8]) -> &[u8]
    ensures { result.now ≡ without_return line.now }
{
    let Some((last, front)) = line.split_last() else {
        return line;
    };
    if *last == b'\r' { front } else { line }
}
