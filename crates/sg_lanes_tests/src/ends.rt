//! What searches come to.

use crate::games::TWO_TYPES;
use crate::session::Session;
use crate::steps::{is_node, may_choose, work_off, works_off};
use sg_commit::Commitment;
use sg_file::read_game;
use sg_lanes::End;
use sg_search::Ready;
use sg_tree::{Cause, Fact, Tree};
use std::alloc::Global;
use std::test::Fail;

/// The nodes of a whole search in the order of the file, each by its number among those that may be chosen: the two prefixes of one type, the two nodes
/// of the cap, and then the parts of the second prefix, which is split although its fact closed it.
static NODES: [(u32, u8, &'static [u16]); 6] = [
    (0, 1, &[1]),
    (0, 1, &[2]),
    (0, 2, &[1]),
    (0, 2, &[2]),
    (0, 1, &[2, 1]),
    (0, 1, &[2, 2]),
];

/// Whether the commitment is two tickets of the first row and one of the second.
fn is_two_to_one(k: &Commitment) -> bool {
    match k.tickets() {
        [first, second] => {
            first.play.code.as_slice() == [1].as_slice()
                && first.weight == 2
                && second.play.code.as_slice() == [2].as_slice()
                && second.weight == 1
        }
        _ => false,
    }
}

/// Whether a fact has these multipliers.
fn is_fact(fact: &Fact, rho: i128, mu: i128) -> bool {
    match fact {
        Fact::Plays { rho: r, mu: m, .. } => *r == rho && *m == mu,
        _ => false,
    }
}

/// Whether a part is closed by a fact with these multipliers.
fn is_closed(tree: &Tree, rho: i128, mu: i128) -> bool {
    match tree {
        Tree::Closed(fact) => is_fact(fact, rho, mu),
        _ => false,
    }
}

/// Whether the second prefix is split, with its own fact and the two below it.
fn is_split_second(tree: &Tree) -> bool {
    match tree {
        Tree::Split { l, base, parts } => {
            let based = match base {
                Some(fact) => is_fact(fact, 3, 11),
                None => false,
            };
            *l == 2
                && based
                && match parts.as_slice() {
                    [first, second] => is_closed(first, 3, 16) && is_closed(second, 3, 22),
                    _ => false,
                }
        }
        _ => false,
    }
}

/// Whether this is the whole tree.
fn is_whole(tree: &Tree) -> bool {
    match tree {
        Tree::Split {
            l: 1,
            base: None,
            parts,
        } => match parts.as_slice() {
            [first, second] => is_closed(first, 1, 2) && is_split_second(second),
            _ => false,
        },
        _ => false,
    }
}

/// Whether these are the nodes in their order.
fn are_worked(end: &End) -> bool {
    let worked = end.worked.as_slice();
    if worked.len() != NODES.len() {
        return false;
    }
    for i in 0..worked.len() {
        match NODES.get(i) {
            Some((_, first, acts)) if is_node(&worked[i].fix, *first, *acts) => {}
            _ => return false,
        }
    }
    true
}

/// Whether a lane works these nodes off.
fn are_worked_off(
    alloc: Global,
    session: &mut Session<'_>,
    nodes: &[(u32, u8, &'static [u16])],
) -> Result<bool, Fail> {
    for (n, first, acts) in nodes {
        if !works_off(alloc, session, *n, *first, *acts)? {
            return Ok(false);
        }
    }
    Ok(true)
}

/// Whether the whole search comes to the optimum.
fn is_optimal(alloc: Global) -> Result<bool, Fail> {
    let game = read_game(alloc, TWO_TYPES.as_bytes())?;
    let mut session = match Session::new(alloc, &game, 1, 100, 1000)? {
        Some(session) => session,
        None => return Ok(false),
    };
    if !are_worked_off(alloc, &mut session, &NODES)? || session.enabled(1) != Ready::Nothing {
        return Ok(false);
    }
    let end = session.end(alloc)?;
    Ok(
        is_two_to_one(&end.tickets)
            && end.value.num() == 11
            && end.value.den() == 3
            && is_whole(&end.tree)
            && are_worked(&end)
            && end.stuck.is_none(),
    )
}

/// Whether the search stops after so many nodes.
fn is_spent(alloc: Global) -> Result<bool, Fail> {
    let game = read_game(alloc, TWO_TYPES.as_bytes())?;
    let mut session = match Session::new(alloc, &game, 1, 1, 1000)? {
        Some(session) => session,
        None => return Ok(false),
    };
    Ok(works_off(alloc, &mut session, 0, 1, &[1])? && session.enabled(1) == Ready::Nothing)
}

/// Whether this is the cause of the second prefix, whose program wants two moves and may make one.
fn is_cause(cause: &Option<Cause>) -> bool {
    match cause {
        Some(Cause::Pivots { budget, fix }) => *budget == 1 && is_node(fix, 1, &[2]),
        _ => false,
    }
}

/// Whether no lane takes a node again that is stuck: of the four nodes at the start the second prefix and the first node of the cap are stuck, and
/// then nothing may happen.
fn is_barred(alloc: Global) -> Result<bool, Fail> {
    let game = read_game(alloc, TWO_TYPES.as_bytes())?;
    let mut session = match Session::new(alloc, &game, 2, 100, 1)? {
        Some(session) => session,
        None => return Ok(false),
    };
    if !works_off(alloc, &mut session, 1, 1, &[2])? || !may_choose(&session, 3) {
        return Ok(false);
    }
    if !works_off(alloc, &mut session, 1, 2, &[1])? || !may_choose(&session, 2) {
        return Ok(false);
    }
    if !works_off(alloc, &mut session, 0, 1, &[1])?
        || !works_off(alloc, &mut session, 0, 2, &[2])?
    {
        return Ok(false);
    }
    if work_off(alloc, &mut session, 2, 0)?.is_some() || session.enabled(1) != Ready::Nothing {
        return Ok(false);
    }
    let end = session.end(alloc)?;
    Ok(end.worked.len() == 2 && is_cause(&end.stuck))
}

#[test]
fn searches_end(rt: HostRuntime) -> Result<(), Fail> {
    assert!(rt; is_optimal(rt.alloc())?);
    assert!(rt; is_spent(rt.alloc())?);
    assert!(rt; is_barred(rt.alloc())?);
    Ok(())
}
