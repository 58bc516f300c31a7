//! Where a line ends, for the readers of plan texts, certificates and event texts.
ghost use Rattle.std.specs.Prelude.{◌≡◌, ◌<◌, ◌+◌, ◌==◌, true, length, take, drop, MatchOption, option_map};
ghost use Rattle.std.specs.List.{position_from};
ghost use Rattle.mapf_fields.specs.Ends.{IsCut, lacks_end, cut};

// Returns the index of the first LF.
fn end_place(bytes: &[u8]) -> Option<usize>
    ensures { result ≡ position_from (λ b. b == 10) 0 bytes.now }
{
    bytes.iter().position(|b| *b == b'\n')
}

/// Returns the length of the line that bytes begin with, without its LF. None if there is no LF.
pub fn line_length(bytes: &[u8]) -> Option<usize>
    ensures { MatchOption result (lacks_end bytes.now ≡ true) (λ n.
        (n < length bytes.now) × IsCut bytes.now (take n bytes.now) (drop (n + 1) bytes.now)) }
{
    end_place(bytes)
}

/// Returns the first line without its LF, and what follows that LF. None if there is no LF.
pub fn cut(bytes: &[u8]) -> Option<(&[u8], &[u8])>
    ensures first { MatchOption result (lacks_end bytes.entry.now ≡ true)
        (λ p. IsCut bytes.entry.now p.0.now p.1.now) }
    // The result is that of the definition.
    ensures value { option_map (λ p. (p.0.now, p.1.now)) result ≡ cut bytes.entry.now }
{
    match line_length(bytes) {
        None => None,
        Some(n) => Some((&bytes[..n], &bytes[n + 1..])),
    }
}
