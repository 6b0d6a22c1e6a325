use sqlite_items::Items;

/// A pure strategy of the defender: a choice for each resource, in their order.
///
/// 0 is idle, and `j` is the `j`-th schedule of the resource's list. In matrix form it is one row number, from 1.
#[derive(Drop)]
pub struct Play {
    /// The choices.
    pub code: Items<u16>,
}

/// A play with its weight, which is a count of tickets out of the total of a commitment.
#[derive(Drop)]
pub struct Ticket {
    /// What is played.
    pub play: Play,
    /// How many tickets it has.
    pub weight: i128,
}
