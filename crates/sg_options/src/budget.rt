//! How much work a search may do.

/// How many nodes a search may work, and how many moves and looks the program of a node may make.
#[derive(Clone, Copy, Debug, PartialEq, Eq)]
pub struct Budget {
    /// Nodes that may be worked: 1 to 1,000,000.
    pub nodes: u64,
    /// Moves of a node's program: 1 to 1,000,000,000.
    pub pivots: u64,
    /// Looks each time that a node's program prices: 1 to 10^18.
    pub looks: u64,
}
