//! The two numbers of a fact.

/// What a fact over plays states besides its marks.
#[derive(Clone, Copy)]
pub(crate) struct Stated {
    /// The multiplier of what the defender gets.
    pub(crate) rho: i128,
    /// The multiplier of the whole.
    pub(crate) mu: i128,
}
