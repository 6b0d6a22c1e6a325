//! Bytes that are no game, for each reason.
use sg_file::{GameError, read_game};
use sg_game::{Game, GameFault, Place};
use std::alloc::Global;

/// Whether the bytes were refused for this reason at this place.
pub(crate) fn is_refused(read: Result<Game, GameError>, reason: u8, place: Place) -> bool {
    match read {
        Err(GameError::Refused(fault)) => fault == GameFault { reason, place },
        _ => false,
    }
}

/// Bytes that are no game, and the reason and place of their refusal.
type Refused = (&'static [u8], u8, Place);

/// Whole files for each reason, in the order of the reasons.
static REASONS: [Refused; 24] = [
    // Not TOML: an unfinished line, bytes that are not UTF-8, an integer past 64 bits.
    (
        b"version = 1\nform = \"security\"\ntargets = [\"a\"\n",
        1,
        Place::Document,
    ),
    (b"version = 1 # \xff\n", 1, Place::Document),
    (b"version = 18446744073709551617\n", 1, Place::Document),
    // A bad version.
    (b"version = 2\nform = \"security\"\n", 2, Place::Document),
    (b"version = 0\n", 2, Place::Document),
    // A missing key.
    (
        b"version = 1\nform = \"security\"\npatrols = 1\n[[type]]\nname = \"a\"\nprior = 1\npayoffs = [[1, 0, 0, 1]]\n",
        3,
        Place::Document,
    ),
    (
        b"version = 1\nform = \"security\"\npatrols = 1\ntargets = [\"a\"]\n[[type]]\nname = \"a\"\nprior = 1\n",
        3,
        Place::Attacker(1),
    ),
    (
        b"version = 1\nform = \"security\"\ntargets = [\"a\"]\nresource = []\n[[schedule]]\nname = \"s\"\n[[type]]\nname = \"a\"\nprior = 1\npayoffs = [[1, 0, 0, 1]]\n",
        3,
        Place::Schedule(1),
    ),
    // A value of the wrong kind.
    (
        b"version = 1\nform = \"security\"\npatrols = \"two\"\ntargets = [\"a\"]\n[[type]]\nname = \"a\"\nprior = 1\npayoffs = [[1, 0, 0, 1]]\n",
        4,
        Place::Document,
    ),
    (
        b"version = 1\nform = \"matrix\"\nrows = [\"A\", 1]\ntype = []\n",
        4,
        Place::Row(2),
    ),
    // An unknown key.
    (
        b"version = 1\nform = \"security\"\ncolour = \"red\"\npatrols = 1\ntargets = [\"a\"]\n[[type]]\nname = \"a\"\nprior = 1\npayoffs = [[1, 0, 0, 1]]\n",
        5,
        Place::Document,
    ),
    (
        b"version = 1\nform = \"security\"\npatrols = 1\ntargets = [\"a\"]\n[[type]]\nname = \"a\"\nprior = 1\nactions = []\npayoffs = []\n",
        5,
        Place::Attacker(1),
    ),
    // An empty list.
    (
        b"version = 1\nform = \"security\"\npatrols = 1\ntargets = []\n[[type]]\nname = \"a\"\nprior = 1\npayoffs = [[1, 0, 0, 1]]\n",
        6,
        Place::Document,
    ),
    (
        b"version = 1\nform = \"matrix\"\nrows = [\"A\"]\n[[type]]\nname = \"a\"\nprior = 1\nactions = []\nleader = [[]]\nfollower = [[]]\n",
        6,
        Place::Attacker(1),
    ),
    // An unknown name.
    (
        b"version = 1\nform = \"security\"\ntargets = [\"gate\"]\nresource = []\n[[schedule]]\nname = \"s\"\ntargets = [\"gat\"]\n[[type]]\nname = \"a\"\nprior = 1\npayoffs = [[1, 0, 0, 1]]\n",
        7,
        Place::Schedule(1),
    ),
    (
        b"version = 1\nform = \"security\"\ntargets = [\"gate\"]\nschedule = []\n[[resource]]\nname = \"r\"\nschedules = [\"s\"]\n[[type]]\nname = \"a\"\nprior = 1\npayoffs = [[1, 0, 0, 1]]\n",
        7,
        Place::Resource(1),
    ),
    // A repeated name.
    (
        b"version = 1\nform = \"security\"\npatrols = 1\ntargets = [\"gate\", \"hall\", \"gate\"]\n[[type]]\nname = \"a\"\nprior = 1\npayoffs = [[1, 0, 0, 1]]\n",
        8,
        Place::Target(3),
    ),
    (
        b"version = 1\nform = \"matrix\"\nrows = [\"A\", \"A\"]\ntype = []\n",
        8,
        Place::Row(2),
    ),
    // A number or a name out of range.
    (
        b"version = 1\nform = \"security\"\npatrols = 33\ntargets = [\"a\"]\n[[type]]\nname = \"a\"\nprior = 1\npayoffs = [[1, 0, 0, 1]]\n",
        9,
        Place::Document,
    ),
    (
        b"version = 1\nform = \"security\"\npatrols = 1\ntargets = [\"a\"]\n[[type]]\nname = \"a\"\nprior = 1\npayoffs = [[1, 0, 0, 1073741825]]\n",
        9,
        Place::Attacker(1),
    ),
    (
        b"version = 1\nform = \"security\"\ntargets = [\"a\"]\nresource = []\n[[schedule]]\nname = \"s s\"\ntargets = [\"a\"]\n[[type]]\nname = \"a\"\nprior = 1\npayoffs = [[1, 0, 0, 1]]\n",
        9,
        Place::Schedule(1),
    ),
    // Too large: nine types.
    (
        b"version = 1\nform = \"security\"\npatrols = 1\ntargets = [\"a\"]\ntype = [{}, {}, {}, {}, {}, {}, {}, {}, {}]\n",
        10,
        Place::Document,
    ),
    // A bad scale: a gap of 4, and a payoff that is no better for being covered.
    (
        b"version = 1\nform = \"security\"\nscale = 6\npatrols = 1\ntargets = [\"a\"]\n[[type]]\nname = \"a\"\nprior = 1\npayoffs = [[1, 0, 0, 4]]\n",
        11,
        Place::Attacker(1),
    ),
    (
        b"version = 1\nform = \"security\"\nscale = 4\npatrols = 1\ntargets = [\"a\"]\n[[type]]\nname = \"a\"\nprior = 1\npayoffs = [[0, 0, 0, 4]]\n",
        11,
        Place::Attacker(1),
    ),
];

/// Documents whose first fault stands at a top key.
static TOP_KEYS: [Refused; 31] = [
    (b"", 3, Place::Document),
    (b"version = ", 1, Place::Document),
    (b"version = 9223372036854775808\n", 1, Place::Document),
    (b"version = 1\nversion = 1\n", 1, Place::Document),
    (b"\xef\xbb\xbfversion = 2\r\n", 2, Place::Document),
    (b"version = -1\ncolour = 1\n", 2, Place::Document),
    (b"version = 1.0\n", 4, Place::Document),
    (b"version = true\n", 4, Place::Document),
    (b"version = \"1\"\n", 4, Place::Document),
    (b"version = 1979-05-27\n", 4, Place::Document),
    (b"version = 1 # one\n", 3, Place::Document),
    (b"version = 1\nform = 1\n", 4, Place::Document),
    (b"version = 1\nform = \"Security\"\n", 9, Place::Document),
    (
        b"version = 1\nform = \"security\"\ncolour = 1\n",
        5,
        Place::Document,
    ),
    (b"version = 1\nform = \"security\"\n", 3, Place::Document),
    (
        b"version = 1\nform = \"matrix\"\ntargets = []\n",
        5,
        Place::Document,
    ),
    (
        b"version = 1\nform = \"security\"\npatrols = \"x\"\nschedule = []\n",
        5,
        Place::Document,
    ),
    (
        b"version = 1\nform = \"security\"\ntargets = []\npatrols = 1\n",
        3,
        Place::Document,
    ),
    (
        b"version = 1\nform = \"security\"\ntargets = 3\nscale = 1\nschedule = 1\nresource = []\ntype = []\n",
        3,
        Place::Document,
    ),
    (
        b"version = 1\nform = \"security\"\ntargets = 3\nscale = 0\npatrols = 1\ntype = []\n",
        4,
        Place::Document,
    ),
    (
        b"version = 1\nform = \"security\"\ntargets = []\nscale = 0\npatrols = 1\ntype = []\n",
        6,
        Place::Document,
    ),
    (
        b"version = 1\nform = \"security\"\ntargets = [\"a\"]\nscale = 1.5\npatrols = -1\ntype = []\n",
        4,
        Place::Document,
    ),
    (
        b"version = 1\nform = \"security\"\ntargets = [\"a\"]\nscale = 4294967297\npatrols = \"x\"\ntype = []\n",
        9,
        Place::Document,
    ),
    (
        b"version = 1\nform = \"security\"\ntargets = [\"a\"]\npatrols = 33\ntype = []\n",
        9,
        Place::Document,
    ),
    (
        b"version = 1\nform = \"security\"\ntargets = [\"a\"]\nscale = 1\npatrols = 200\ntype = []\n",
        6,
        Place::Document,
    ),
    (
        b"version = 1\nform = \"security\"\ntargets = [\"a\"]\nscale = 1\npatrols = 1\ntype = [1, 2]\n",
        10,
        Place::Document,
    ),
    (
        b"version = 1\nform = \"security\"\ntargets = [\"a\"]\npatrols = 1\ntype = [1, 2, 3, 4, 5, 6, 7, 8, 9]\n",
        10,
        Place::Document,
    ),
    (
        b"version = 1\nform = \"security\"\ntargets = [\"a\"]\nschedule = {}\nresource = []\ntype = []\n",
        4,
        Place::Document,
    ),
    (b"# \xff\nversion = 2\n", 1, Place::Document),
    (
        b"version = 1\nform = \"matrix\"\nrows = [\"A\"]\ntype = [1, 2, 3, 4, 5, 6, 7, 8, 9]\n",
        10,
        Place::Document,
    ),
    (
        b"version = 1\nform = \"matrix\"\nrows = [\"A\"]\ntype = [1, 2, 3, 4, 5, 6, 7, 8]\n",
        4,
        Place::Attacker(1),
    ),
];

/// The first bytes, counted from 0, that are not refused so.
fn first_let_through(alloc: Global, cases: &[Refused]) -> Option<usize> {
    for k in 0..cases.len() {
        let (bytes, reason, place) = cases[k];
        if !is_refused(read_game(alloc, bytes), reason, place) {
            return Some(k);
        }
    }
    None
}

#[test]
fn refuses_whole_files(rt: HostRuntime) {
    assert_eq!(rt; first_let_through(rt.alloc(), &REASONS), None);
    assert_eq!(rt; first_let_through(rt.alloc(), &TOP_KEYS), None);
}
