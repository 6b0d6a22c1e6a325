//! The shapes of generated games.

/// What a generated game is like.
#[derive(Clone, Copy, Debug, PartialEq, Eq)]
pub enum Shape {
    /// Identical patrols over targets, with a scale.
    Free {
        /// From 1 to 10,000.
        targets: u16,
        /// From 0 to 200.
        patrols: u16,
    },
    /// Blocks of targets, each with a resource that covers one or two of its targets.
    Blocks {
        /// The resources, one for each block, from 1 to 8.
        resources: u16,
        /// The targets of a block, from 2 to 10.
        width: u16,
        /// The greatest payoff, from 1 to 1,000.
        span: u16,
    },
    /// A game in matrix form; the product of its numbers is at most 200,000.
    Table {
        /// From 1 to 4,096.
        rows: u16,
        /// The actions of each type, from 1 to 64.
        actions: u16,
        /// From 1 to 8.
        types: u8,
    },
}
