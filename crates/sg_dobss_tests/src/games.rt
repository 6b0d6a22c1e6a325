//! Game files of small games.
/// Two rows, against one type with two actions.
pub const ONE_PLAYER: &str =
    "version = 1\nform = \"matrix\"\nrows = [\"A\", \"B\"]\n\n[[type]]\nname = \"one\"\nprior = 1\nactions = [\"x\", \"y\"]\nleader = [[2, 4], [1, 3]]\nfollower = [[1, 0], [0, 2]]\n";

/// The same rows, against a second type too.
pub const TWO_PLAYERS: &str =
    "version = 1\nform = \"matrix\"\nrows = [\"A\", \"B\"]\n\n[[type]]\nname = \"one\"\nprior = 1\nactions = [\"x\", \"y\"]\nleader = [[2, 4], [1, 3]]\nfollower = [[1, 0], [0, 2]]\n\n[[type]]\nname = \"two\"\nprior = 1\nactions = [\"x\", \"y\"]\nleader = [[2, 4], [1, 3]]\nfollower = [[0, 1], [2, 0]]\n";

/// Four targets in a square: one resource covers a row of it, the other a column.
pub const SQUARE: &str =
    "version = 1\nform = \"security\"\ntargets = [\"t1\", \"t2\", \"t3\", \"t4\"]\n\n[[schedule]]\nname = \"s1\"\ntargets = [\"t1\", \"t2\"]\n\n[[schedule]]\nname = \"s2\"\ntargets = [\"t3\", \"t4\"]\n\n[[schedule]]\nname = \"s3\"\ntargets = [\"t1\", \"t3\"]\n\n[[schedule]]\nname = \"s4\"\ntargets = [\"t2\", \"t4\"]\n\n[[resource]]\nname = \"r1\"\nschedules = [\"s1\", \"s2\"]\n\n[[resource]]\nname = \"r2\"\nschedules = [\"s3\", \"s4\"]\n\n[[type]]\nname = \"thief\"\nprior = 1\npayoffs = [[0, -1, 0, 1], [0, -1, 0, 1], [0, -1, 0, 1], [0, -1, 0, 1]]\n";

/// Three targets in a line, and one resource that covers two neighbours.
pub const LINE: &str =
    "version = 1\nform = \"security\"\ntargets = [\"t1\", \"t2\", \"t3\"]\n\n[[schedule]]\nname = \"s1\"\ntargets = [\"t1\", \"t2\"]\n\n[[schedule]]\nname = \"s2\"\ntargets = [\"t2\", \"t3\"]\n\n[[resource]]\nname = \"r1\"\nschedules = [\"s1\", \"s2\"]\n\n[[type]]\nname = \"thief\"\nprior = 1\npayoffs = [[0, -1, 0, 1], [0, -1, 0, 1], [0, -1, 0, 1]]\n";
