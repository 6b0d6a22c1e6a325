//! Game files of small games.
/// One target, and one resource that covers it.
pub const ONE_GUARD: &str =
    "version = 1\nform = \"security\"\ntargets = [\"t1\"]\n\n[[schedule]]\nname = \"s1\"\ntargets = [\"t1\"]\n\n[[resource]]\nname = \"r1\"\nschedules = [\"s1\"]\n\n[[type]]\nname = \"thief\"\nprior = 1\npayoffs = [[1, -1, 0, 1]]\n";

/// The same with a patrol.
pub const ONE_PATROL: &str =
    "version = 1\nform = \"security\"\npatrols = 1\ntargets = [\"t1\"]\n\n[[type]]\nname = \"thief\"\nprior = 1\npayoffs = [[1, -1, 0, 1]]\n";

/// Two targets and two thieves: one resource covers the second target, the other one either.
pub const TWO_THIEVES: &str =
    "version = 1\nform = \"security\"\ntargets = [\"t1\", \"t2\"]\n\n[[schedule]]\nname = \"s1\"\ntargets = [\"t1\"]\n\n[[schedule]]\nname = \"s2\"\ntargets = [\"t2\"]\n\n[[resource]]\nname = \"r1\"\nschedules = [\"s2\"]\n\n[[resource]]\nname = \"r2\"\nschedules = [\"s1\", \"s2\"]\n\n[[type]]\nname = \"first\"\nprior = 2\npayoffs = [[-1, -5, 1, 6], [-2, -3, 0, 4]]\n\n[[type]]\nname = \"second\"\nprior = 3\npayoffs = [[4, 3, -2, 2], [7, 2, -1, 5]]\n";

/// Three targets in a line, and one resource that covers two neighbours.
pub const LINE: &str =
    "version = 1\nform = \"security\"\ntargets = [\"t1\", \"t2\", \"t3\"]\n\n[[schedule]]\nname = \"s1\"\ntargets = [\"t1\", \"t2\"]\n\n[[schedule]]\nname = \"s2\"\ntargets = [\"t2\", \"t3\"]\n\n[[resource]]\nname = \"r1\"\nschedules = [\"s1\", \"s2\"]\n\n[[type]]\nname = \"thief\"\nprior = 1\npayoffs = [[0, -1, 0, 1], [0, -1, 0, 1], [0, -1, 0, 1]]\n";

/// Two targets, and no resource.
pub const UNGUARDED: &str =
    "version = 1\nform = \"security\"\npatrols = 0\ntargets = [\"t1\", \"t2\"]\n\n[[type]]\nname = \"thief\"\nprior = 1\npayoffs = [[0, -1, 0, 1], [0, -2, 0, 3]]\n";
