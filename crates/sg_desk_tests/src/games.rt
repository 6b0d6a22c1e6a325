//! Game files of small games.
/// Rows A and B against one type, which gets most from the action that the row leaves open.
pub const ONE_TYPE: &str = r#"version = 1
form = "matrix"
rows = ["A", "B"]

[[type]]
name = "thief"
prior = 1
actions = ["x", "y"]
leader = [[2, 4], [1, 3]]
follower = [[1, 0], [0, 2]]
"#;

/// The same with a second type, which gets most from the other actions.
pub const TWO_TYPES: &str = r#"version = 1
form = "matrix"
rows = ["A", "B"]

[[type]]
name = "thief"
prior = 1
actions = ["x", "y"]
leader = [[2, 4], [1, 3]]
follower = [[1, 0], [0, 2]]

[[type]]
name = "spy"
prior = 1
actions = ["x", "y"]
leader = [[2, 4], [1, 3]]
follower = [[0, 1], [2, 0]]
"#;

/// Four targets, and two resources that split them in two ways: three at most are covered at once.
pub const CROSSED: &str = r#"version = 1
form = "security"
targets = ["a", "b", "c", "d"]

[[schedule]]
name = "ab"
targets = ["a", "b"]

[[schedule]]
name = "cd"
targets = ["c", "d"]

[[schedule]]
name = "ac"
targets = ["a", "c"]

[[schedule]]
name = "bd"
targets = ["b", "d"]

[[resource]]
name = "r1"
schedules = ["ab", "cd"]

[[resource]]
name = "r2"
schedules = ["ac", "bd"]

[[type]]
name = "thief"
prior = 1
payoffs = [[0, -1, 0, 1], [0, -1, 0, 1], [0, -1, 0, 1], [0, -1, 0, 1]]
"#;

/// Three targets in a row, and a resource that covers two neighbours.
pub const NEIGHBOURS: &str = r#"version = 1
form = "security"
targets = ["a", "b", "c"]

[[schedule]]
name = "ab"
targets = ["a", "b"]

[[schedule]]
name = "bc"
targets = ["b", "c"]

[[resource]]
name = "r1"
schedules = ["ab", "bc"]

[[type]]
name = "thief"
prior = 1
payoffs = [[0, -1, 0, 1], [0, -1, 0, 1], [0, -1, 0, 1]]
"#;

/// The second action is never best.
pub const NEVER: &str = r#"version = 1
form = "matrix"
rows = ["A", "B"]

[[type]]
name = "thief"
prior = 1
actions = ["x", "y"]
leader = [[1, 1], [1, 1]]
follower = [[1, 0], [1, 0]]
"#;

/// Two rows that are alike in all, and a third that differs.
pub const ALIKE: &str = r#"version = 1
form = "matrix"
rows = ["A", "B", "C"]

[[type]]
name = "thief"
prior = 1
actions = ["x", "y"]
leader = [[1, 3], [1, 3], [1, 3]]
follower = [[1, 0], [0, 1], [0, 1]]
"#;

/// Payoffs so uneven that the total of a point passes 2^89.
pub const UNEVEN: &str = r#"version = 1
form = "matrix"
rows = ["r1", "r2", "r3", "r4", "r5", "r6", "r7", "r8"]

[[type]]
name = "thief"
prior = 1
actions = ["a", "b", "c", "d", "e", "f", "g"]
leader = [[15, -16, -4, 8, 12, -1, 13], [16, 3, 10, -5, -8, 9, 14], [-12, -1, 2, 11, -14, 2, -13], [-10, 12, -5, 11, 4, 0, 2], [-16, 13, -7, 3, -5, -15, -11], [14, -2, -5, -10, 2, -4, 10], [16, -7, 8, 0, 10, -6, -14], [-14, -14, -11, -7, 1, -9, -5]]
follower = [[0, 0, 0, -2, -795150107, 0, -3], [0, 0, 0, 1, 0, 0, 0], [0, 0, 0, 0, 0, 0, 0], [0, 22013134, 0, -21696, 0, 0, 0], [0, -3583343, 0, 0, 6338, 1, 0], [0, 0, 0, 0, 898303933, 0, 892131596], [0, 775148217, 0, 0, -983495815, -9553772, 0], [0, 51714515, 0, 0, 0, 90338921, 978633592]]
"#;
