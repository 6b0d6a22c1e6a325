//! In which order a search does its work.

/// Which node a lane begins.
#[derive(Clone, Copy, Debug, PartialEq, Eq)]
pub enum Walk {
    /// The first by its types and actions.
    File,
    /// One of the greatest bound: of these the first.
    Best,
    /// One that a seed draws.
    Seeded,
}

/// By which family of programs a search works its nodes.
#[derive(Clone, Copy, Debug, PartialEq, Eq)]
pub enum Choice {
    /// The one that suits the game.
    Auto,
    /// All legal plays, listed.
    Listed,
}

/// The order of a search's work, and the family of its programs.
#[derive(Clone, Copy, Debug, PartialEq, Eq)]
pub struct Order {
    /// Which node a lane begins.
    pub walk: Walk,
    /// How many nodes may be in work at once: 1 to 8.
    pub lanes: u8,
    /// The seed of a seeded walk.
    pub seed: u64,
    /// The family of programs.
    pub family: Choice,
}
