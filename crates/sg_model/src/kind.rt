/// The form of a game.
#[derive(Clone, Copy, Debug, PartialEq, Eq)]
pub enum Kind {
    /// Targets, resources and schedules.
    Security,
    /// Rows for the defender, and two tables for each type of attacker.
    Matrix,
}
