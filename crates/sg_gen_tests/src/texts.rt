//! Whole games, as their texts: worked out by a program of its own (`tools/generated_games.py`).
use crate::making::{Made, made_text};
use std::alloc::Global;

/// One block of two targets.
const ONE_BLOCK: &str =
    "version = 1\nform = \"security\"\ntargets = [\"t1\", \"t2\"]\n\n[[schedule]]\nname = \"s1\"\ntargets = [\"t1\"]\n\n[[schedule]]\nname = \"s2\"\ntargets = [\"t2\"]\n\n[[schedule]]\nname = \"s3\"\ntargets = [\"t1\", \"t2\"]\n\n[[resource]]\nname = \"r1\"\nschedules = [\"s1\", \"s2\", \"s3\"]\n\n[[type]]\nname = \"a1\"\nprior = 1\npayoffs = [[0, -1, 0, 1], [0, -1, 0, 1]]\n";

/// One target and no patrols.
const ONE_TARGET: &str =
    "version = 1\nform = \"security\"\nscale = 4294967296\npatrols = 0\ntargets = [\"t1\"]\n\n[[type]]\nname = \"a1\"\nprior = 1\npayoffs = [[152, -332, -656, 523632]]\n";

/// Two targets and one patrol.
const TWO_TARGETS: &str =
    "version = 1\nform = \"security\"\nscale = 4294967296\npatrols = 1\ntargets = [\"t1\", \"t2\"]\n\n[[type]]\nname = \"a1\"\nprior = 1\npayoffs = [[937, -347, -318, 3778], [445, -839, -824, 31944]]\n";

/// Three targets and as many patrols as can be, of the last seed.
const MANY_PATROLS: &str =
    "version = 1\nform = \"security\"\nscale = 4294967296\npatrols = 200\ntargets = [\"t1\", \"t2\", \"t3\"]\n\n[[type]]\nname = \"a1\"\nprior = 1\npayoffs = [[332, -707, -66, 8126], [611, -843, -419, 261725], [406, -686, -969, 1079]]\n";

/// Two blocks of three targets.
const TWO_BLOCKS: &str =
    "version = 1\nform = \"security\"\ntargets = [\"t1\", \"t2\", \"t3\", \"t4\", \"t5\", \"t6\"]\n\n[[schedule]]\nname = \"s1\"\ntargets = [\"t1\"]\n\n[[schedule]]\nname = \"s2\"\ntargets = [\"t2\"]\n\n[[schedule]]\nname = \"s3\"\ntargets = [\"t3\"]\n\n[[schedule]]\nname = \"s4\"\ntargets = [\"t1\", \"t2\"]\n\n[[schedule]]\nname = \"s5\"\ntargets = [\"t1\", \"t3\"]\n\n[[schedule]]\nname = \"s6\"\ntargets = [\"t2\", \"t3\"]\n\n[[schedule]]\nname = \"s7\"\ntargets = [\"t4\"]\n\n[[schedule]]\nname = \"s8\"\ntargets = [\"t5\"]\n\n[[schedule]]\nname = \"s9\"\ntargets = [\"t6\"]\n\n[[schedule]]\nname = \"s10\"\ntargets = [\"t4\", \"t5\"]\n\n[[schedule]]\nname = \"s11\"\ntargets = [\"t4\", \"t6\"]\n\n[[schedule]]\nname = \"s12\"\ntargets = [\"t5\", \"t6\"]\n\n[[resource]]\nname = \"r1\"\nschedules = [\"s1\", \"s2\", \"s3\", \"s4\", \"s5\", \"s6\"]\n\n[[resource]]\nname = \"r2\"\nschedules = [\"s7\", \"s8\", \"s9\", \"s10\", \"s11\", \"s12\"]\n\n[[type]]\nname = \"a1\"\nprior = 1\npayoffs = [[0, -322, 0, 322], [0, -158, 0, 158], [0, -797, 0, 797], [0, -415, 0, 415], [0, -536, 0, 536], [0, -723, 0, 723]]\n";

/// One row, and one type of one action.
const ONE_ROW: &str =
    "version = 1\nform = \"matrix\"\nrows = [\"r1\"]\n\n[[type]]\nname = \"a1\"\nprior = 1\nactions = [\"x1\"]\nleader = [[2]]\nfollower = [[8]]\n";

/// Two rows, and two types of three actions, of a seed of two bytes.
const TWO_TYPES: &str =
    "version = 1\nform = \"matrix\"\nrows = [\"r1\", \"r2\"]\n\n[[type]]\nname = \"a1\"\nprior = 1\nactions = [\"x1\", \"x2\", \"x3\"]\nleader = [[6, -7, 0], [9, -2, -1]]\nfollower = [[9, 4, -6], [-2, 1, -5]]\n\n[[type]]\nname = \"a2\"\nprior = 1\nactions = [\"x1\", \"x2\", \"x3\"]\nleader = [[5, -1, -2], [1, -4, -4]]\nfollower = [[1, 5, 2], [-4, 10, 6]]\n";

/// Shapes and seeds, and the texts of their games.
static TEXTS: [(&str, u64, &str); 7] = [
    ("blocks-1-2-1", 0, ONE_BLOCK),
    ("free-1-0", 0, ONE_TARGET),
    ("free-2-1", 5, TWO_TARGETS),
    ("free-3-200", u64::MAX, MANY_PATROLS),
    ("blocks-2-3-1000", 7, TWO_BLOCKS),
    ("matrix-1-1-1", 0, ONE_ROW),
    ("matrix-2-3-2", 256, TWO_TYPES),
];

/// The first shape, counted from 0, whose game has another text.
fn first_other(alloc: Global, texts: &[(&str, u64, &str)]) -> Option<usize> {
    for k in 0..texts.len() {
        let (shape, seed, text) = texts[k];
        match made_text(alloc, shape, seed) {
            Made::Text(written) => {
                if written.as_slice() != text.as_bytes() {
                    return Some(k);
                }
            }
            _ => return Some(k),
        }
    }
    None
}

#[test]
fn makes_small_games(rt: HostRuntime) {
    assert_eq!(rt; first_other(rt.alloc(), &TEXTS), None);
}
