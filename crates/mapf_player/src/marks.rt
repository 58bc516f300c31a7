//! How a cell is shown as one byte, for the rows of a frame.
ghost use Rattle.std.specs.Prelude.{◌≡◌, if◌then◌else◌};
ghost use Rattle.mapf_player.specs.Play.{mark};

/// Returns the byte of an agent, by its number.
pub fn mark_of(agent: usize) -> u8
    ensures { result ≡ mark agent }
{
    match agent {
        0..=9 => b'0' + agent as u8,
        10..=35 => b'a' + (agent - 10) as u8,
        36..=61 => b'A' + (agent - 36) as u8,
        _ => b'*',
    }
}

/// Returns the byte of a cell in which no agent is.
pub fn terrain_of(is_free: bool) -> u8
    ensures { result ≡ (if is_free then 46 else 64) }
{
    if is_free { b'.' } else { b'@' }
}
