//! What a turn answers.

use sg_num::Wide;

/// The answer of a turn.
#[derive(Clone, Copy, Debug, PartialEq, Eq)]
pub enum Turn {
    /// The next state was reached.
    Moved,
    /// The state is final.
    Done,
    /// A member enters, and as many moves were made as may be.
    PivotsSpent,
    /// Pricing takes more looks than may be.
    LooksSpent,
    /// A value doesn't fit: its number, 2 for a sum of multipliers or row places times a column's entries or the denominator times its cost, 3 for
    /// the combination of two rows; a family that prices by weights has 1 for these. And its first operation that doesn't fit.
    Wide(u8, Wide),
}
