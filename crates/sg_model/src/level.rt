/// Why the attacker's best payoff can't fall below a level (after ORIGAMI, Kiekintveld and others, 2009).
#[derive(Clone, Copy, Debug, PartialEq, Eq)]
pub enum Level {
    /// The patrols are spent on the targets that pay at least the level.
    Resources,
    /// This target, counted from 1, pays the attacker the level though it is covered for certain.
    Target(u16),
}
