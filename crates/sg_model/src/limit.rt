//! How large the parts of a game may be. A limit is the greatest number that is still allowed.

/// Targets of a game in security form.
pub const TARGET_LIMIT: usize = 200;

/// Targets of a game that declares a scale.
pub const SCALED_TARGET_LIMIT: usize = 10000;

/// Rows of a game in matrix form.
pub const ROW_LIMIT: usize = 4096;

/// Schedules of a game.
pub const SCHEDULE_LIMIT: usize = 500;

/// Targets of one schedule.
pub const SCHEDULE_TARGET_LIMIT: usize = 200;

/// Resources of a game.
pub const RESOURCE_LIMIT: usize = 32;

/// Schedules of one resource.
pub const RESOURCE_SCHEDULE_LIMIT: usize = 500;

/// Identical patrols of a game.
pub const PATROL_LIMIT: usize = 32;

/// Identical patrols of a game that declares a scale.
pub const SCALED_PATROL_LIMIT: usize = 200;

/// Types of attacker.
pub const TYPE_LIMIT: usize = 8;

/// Actions of a type in matrix form.
pub const ACTION_LIMIT: usize = 64;

/// Rows of the largest linear program of a game.
pub const PROGRAM_ROW_LIMIT: usize = 1536;

/// A payoff, from this number below 0 to this number: 2^30.
pub const PAYOFF_LIMIT: i64 = 1_073_741_824;

/// The prior of a type: 2^20.
pub const PRIOR_LIMIT: i64 = 1_048_576;

/// The scale of a game: 2^32.
pub const SCALE_LIMIT: i64 = 4_294_967_296;
