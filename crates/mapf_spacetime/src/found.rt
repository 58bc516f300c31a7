//! The result of the search for one agent. A node of the search over trees keeps it.
use crate::labels::Labels;
use mapf_model::Path;

/// The result of a single-agent search.
#[derive(Debug, Drop)]
pub enum Found<L = Labels> {
    /// A cheapest path, and labels that show that none is cheaper.
    Arrives { path: Path, labels: L },
    /// No path arrives, and the labels show it.
    Dead { labels: L },
}
