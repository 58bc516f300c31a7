//! How many agents, cells, ticks, splits and bytes there may be. The readers of texts take their ranges from here, and
//! so does the search.
ghost use Rattle.std.specs.Prelude.{◌≡◌};
ghost use Rattle.mapf_model.specs.Limits.{most_agents, greatest_side, most_cells, most_path_cells, greatest_cost};
ghost use Rattle.mapf_model.specs.Limits.{greatest_sum, most_splits, last_split_tick, split_ticks, most_text_bytes};
ghost use Rattle.mapf_model.specs.Limits.{most_cert_bytes, longest_cert_line};

/// The number `MOST_AGENTS`, alone or at the end of a text.
#[macro_export]
macro_rules! most_agents {
    () => {
        200
    };
    ($text:literal) => {
        concat!($text, 200)
    };
}

/// The greatest number of agents of a problem.
pub const MOST_AGENTS: u32 = most_agents!();

/// The greatest number of columns of a grid, and of rows.
pub const GREATEST_SIDE: u32 = 2048;

/// The greatest number of cells of a grid.
pub const MOST_CELLS: u32 = 4_194_304;

/// The greatest number of cells of a path.
pub const MOST_PATH_CELLS: usize = 10_000_000;

/// The greatest cost of one path, the greatest label, and the greatest tick of an entry, in ticks.
pub const GREATEST_COST: u32 = 9_999_999;

/// The greatest sum of costs, in ticks.
pub const GREATEST_SUM: u64 = 1_999_999_800;

/// The number `MOST_SPLITS`, alone or at the end of a text.
#[macro_export]
macro_rules! most_splits {
    () => {
        100000
    };
    ($text:literal) => {
        concat!($text, 100000)
    };
}

/// The greatest number of splits that a search may be allowed.
pub const MOST_SPLITS: u32 = most_splits!();

/// The last tick of a conflict that may be split.
pub const LAST_SPLIT_TICK: u32 = 999_999;

/// The first tick whose conflicts aren't split any more.
pub const SPLIT_TICKS: u32 = 1_000_000;

/// The greatest number of bytes of a map, a scenario, a plan text or an event text.
pub const MOST_TEXT_BYTES: u64 = 67_108_864;

/// The greatest number of bytes of a certificate.
pub const MOST_CERT_BYTES: u64 = 1_099_511_627_776;

/// The greatest number of bytes of a line of a certificate, without its LF.
pub const LONGEST_CERT_LINE: usize = 64;

/// The constants equal the numbers of the definitions.
pub fn limits_are_defined()
    ensures agents { MOST_AGENTS ≡ most_agents }
    ensures side { GREATEST_SIDE ≡ greatest_side }
    ensures cells { MOST_CELLS ≡ most_cells }
    ensures path_cells { MOST_PATH_CELLS ≡ most_path_cells }
    ensures cost { GREATEST_COST ≡ greatest_cost }
    ensures sum { GREATEST_SUM ≡ greatest_sum }
    ensures splits { MOST_SPLITS ≡ most_splits }
    ensures last_tick { LAST_SPLIT_TICK ≡ last_split_tick }
    ensures ticks { SPLIT_TICKS ≡ split_ticks }
    ensures text_bytes { MOST_TEXT_BYTES ≡ most_text_bytes }
    ensures cert_bytes { MOST_CERT_BYTES ≡ most_cert_bytes }
    ensures cert_line { LONGEST_CERT_LINE ≡ longest_cert_line }
{}
