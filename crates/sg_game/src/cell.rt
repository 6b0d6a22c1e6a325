/// What a walk over tickets counts of a target: the weights of those that cover it, each ticket once.
#[derive(Clone, Copy)]
pub struct Cell {
    /// The number of the last ticket that was counted, from 1, and 0 before the first.
    pub mark: usize,
    /// The weights of the tickets so far.
    pub count: i128,
}
