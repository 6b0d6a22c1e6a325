// Counts by resource and choice.

/// For each resource and each of its choices from 1, on how many tickets the resource is to take the choice.
#[derive(Drop)]
pub struct Table {
    /// A list for each resource, with one count for each of its choices.
    pub counts: Vec<Vec<i128>>,
}
