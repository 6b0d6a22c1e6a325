//! Why a game file, or the parts of a game, are refused: the reasons by number.

/// The bytes are no TOML document.
pub const NOT_TOML: u8 = 1;

/// The version is a number that isn't read.
pub const BAD_VERSION: u8 = 2;

/// A needed key isn't there.
pub const MISSING_KEY: u8 = 3;

/// A value is of another kind than its key asks.
pub const WRONG_KIND: u8 = 4;

/// A key has no meaning in its table.
pub const UNKNOWN_KEY: u8 = 5;

/// A list that must have items has none.
pub const EMPTY_LIST: u8 = 6;

/// Nothing has the name that is asked for.
pub const UNKNOWN_NAME: u8 = 7;

/// A name stands twice in its list.
pub const REPEATED_NAME: u8 = 8;

/// A number is outside its range, a name in a wrong spelling, the form another one, or a list of a wrong length.
pub const OUT_OF_RANGE: u8 = 9;

/// A list is longer than its limit, or the game's linear program too large.
pub const TOO_LARGE: u8 = 10;

/// The payoffs don't fit the declared scale.
pub const BAD_SCALE: u8 = 11;
