//! Game files of small games.

/// Rows A and B against two types, each of which gets most from the action that the row leaves open, the first the other way round than the second.
pub const TWO_TYPES: &str = r#"version = 1
form = "matrix"
rows = ["A", "B"]

[[type]]
name = "thief"
prior = 1
actions = ["x", "y"]
leader = [[2, 4], [1, 3]]
follower = [[1, 0], [0, 2]]

[[type]]
name = "spy"
prior = 1
actions = ["x", "y"]
leader = [[2, 4], [1, 3]]
follower = [[0, 1], [2, 0]]
"#;

/// The same, but for the second type its first action is always best.
pub const STEADY: &str = r#"version = 1
form = "matrix"
rows = ["A", "B"]

[[type]]
name = "thief"
prior = 1
actions = ["x", "y"]
leader = [[2, 4], [1, 3]]
follower = [[1, 0], [0, 2]]

[[type]]
name = "spy"
prior = 1
actions = ["x", "y"]
leader = [[2, 4], [1, 3]]
follower = [[1, 0], [1, 0]]
"#;
