//! What is answered for a game.

use sg_tree::{Report, Worked};
use sqlite_items::Items;

/// A report on a game, and the nodes that were worked for it.
#[derive(Drop)]
pub struct Answer {
    /// The report.
    pub report: Report,
    /// The worked nodes in the order in which they were finished: none for a game of identical patrols.
    pub worked: Items<Worked>,
}
