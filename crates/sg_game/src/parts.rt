use sg_model::Kind;

/// A schedule with the numbers of its targets, or a resource with those of its schedules, counted from 1.
#[derive(Debug, Drop)]
pub struct ListParts {
    /// Its name.
    pub name: String,
    /// The numbers of its members.
    pub members: Vec<u32>,
}

/// A type of attacker. The fields of the other form are empty.
#[derive(Debug, Drop)]
pub struct TypeParts {
    /// Its name.
    pub name: String,
    /// How often it comes, out of the sum of the priors.
    pub prior: i64,
    /// In security form, four payoffs for each target: defender covered and uncovered, attacker covered and uncovered.
    pub payoffs: Vec<Vec<i64>>,
    /// In matrix form, the names of its actions.
    pub actions: Vec<String>,
    /// In matrix form, what the defender gets: a list for each row, with one payoff for each action.
    pub leader: Vec<Vec<i64>>,
    /// In matrix form, what the attacker gets.
    pub follower: Vec<Vec<i64>>,
}

/// The parts of which a game is made.
#[derive(Debug, Drop)]
pub struct Parts {
    /// The form of the game.
    pub kind: Kind,
    /// The declared common multiple of the attacker's payoff gaps.
    pub scale: Option<i64>,
    /// The number of identical patrols, each of which may cover any one target.
    pub patrols: Option<i64>,
    /// The names of the targets, or of the rows in matrix form.
    pub goals: Vec<String>,
    /// The schedules, whose members are numbers of targets. Empty with patrols and in matrix form.
    pub schedules: Vec<ListParts>,
    /// The resources, whose members are numbers of schedules. Empty with patrols and in matrix form.
    pub resources: Vec<ListParts>,
    /// The types of attacker.
    pub types: Vec<TypeParts>,
}
