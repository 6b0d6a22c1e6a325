//! Games at the ends of the ranges: their texts' lengths and sums, worked out by a program of its own
//! (`tools/generated_games.py`), and that each text is a game file of the same game.
use crate::making::{Made, made_text, reads_back};
use std::alloc::Global;

/// Shapes and seeds, and the lengths and sums of the texts of their games.
static ENDS: [(&str, u64, usize, u64); 6] = [
    ("free-10000-200", 1, 345842, 16239063009148764321),
    ("free-10000-0", 4, 345761, 2322516036388531874),
    ("blocks-8-10-1000", 3, 28427, 4721045415302513932),
    ("matrix-3125-8-8", 2, 1556726, 17898282567583070557),
    ("matrix-4096-12-4", 1, 1506423, 17986084035383027157),
    ("matrix-1-64-1", 9, 1013, 12916290752305912907),
];

/// The sum of Fowler, Noll and Vo of some bytes, with 64 bits.
fn sum_of(bytes: &[u8]) -> u64 {
    let mut sum: u64 = 0xcbf2_9ce4_8422_2325;
    for byte in bytes {
        sum = (sum ^ u64::from(*byte)).wrapping_mul(0x0100_0000_01b3);
    }
    sum
}

/// The first shape, counted from 0, whose text has another length or sum, or is no game file of the same game.
fn first_other(alloc: Global, ends: &[(&str, u64, usize, u64)]) -> Option<usize> {
    for k in 0..ends.len() {
        let (shape, seed, length, sum) = ends[k];
        match made_text(alloc, shape, seed) {
            Made::Text(text) => {
                let is_same = text.len() == length && sum_of(text.as_slice()) == sum;
                if !is_same || !reads_back(alloc, text.as_slice()) {
                    return Some(k);
                }
            }
            _ => return Some(k),
        }
    }
    None
}

#[test]
fn makes_games_at_the_ends(rt: HostRuntime) {
    assert_eq!(rt; first_other(rt.alloc(), &ENDS), None);
}
