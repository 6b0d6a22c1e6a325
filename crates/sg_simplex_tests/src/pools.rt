//! Pools, and nodes over one pool.
ghost use Rattle.std.specs.Prelude.{◌≡◌};

use crate::Table;
use crate::running::table_of;
use sg_pool::Pool;
use sg_simplex::{Node, Turn};
use std::alloc::Global;
use std::test::Fail;

#[test]
fn a_pool_of_one_row(rt: HostRuntime) -> Result<(), Fail> {
    let mut pool = Pool::new(rt.alloc(), 2, 1)?;
    assert_eq!(rt; (pool.spare(), pool.out()), (1, 0));
    let mut row = pool.take().ok_or("no row")?;
    assert_eq!(rt; (pool.spare(), pool.out()), (0, 1));
    assert!(rt; pool.take().is_none());
    assert_eq!(rt; row.places(), [0, 0].as_slice());
    row.places_mut()[1] = 7;
    pool.give(row);
    assert_eq!(rt; (pool.spare(), pool.out()), (1, 0));
    let again = pool.take().ok_or("no row again")?;
    assert_eq!(rt; again.places(), [0, 7].as_slice());
    Ok(())
}

/// Which of two nodes gives its rows back first.
#[derive(Clone, Copy)]
enum First {
    One,
    Other,
}

/// Two programs over one pool of six rows, each run to its end beside the other, then closed: how many rows are free with both alive, with one,
/// and with none; nothing where one of them ends otherwise.
fn spare_rows(alloc: Global, first: First) -> Result<Option<[usize; 3]>, Fail> {
    let mut pool = Pool::new(alloc, 3, 6)?;
    let small = table_of(alloc, 1, &[(5, &[2]), (9, &[3]), (3, &[1])])?.ok_or("no table")?;
    let large = table_of(alloc, 2, &[(4, &[1, 1]), (3, &[1, -2])])?.ok_or("no table")?;
    let mut one = Node::start(alloc, small, 100, 100, &mut pool)?;
    let mut other = Node::start(alloc, large, 100, 100, &mut pool)?;
    let both = pool.spare();
    let ends = end_in_turn(&mut one, &mut other);
    let alone = match first {
        First::One => {
            one.close(&mut pool);
            let alone = pool.spare();
            other.close(&mut pool);
            alone
        }
        First::Other => {
            other.close(&mut pool);
            let alone = pool.spare();
            one.close(&mut pool);
            alone
        }
    };
    if ends {
        Ok(Some([both, alone, pool.spare()]))
    } else {
        Ok(None)
    }
}

/// Runs two nodes turn by turn beside each other, and says whether both come to their ends as they do alone.
fn end_in_turn(one: &mut Node<Table>, other: &mut Node<Table>) -> bool
    ensures one_width { one.new.width ≡ one.old.width }
    ensures one_family { one.new.family ≡ one.old.family }
    ensures other_width { other.new.width ≡ other.old.width }
    ensures other_family { other.new.family ≡ other.old.family }
{
    let first = one.turn() == Turn::Moved && other.turn() == Turn::Moved;
    let second = one.turn() == Turn::Moved && other.turn() == Turn::Moved;
    let third = one.turn() == Turn::Done && other.turn() == Turn::Done;
    first
        && second
        && third
        && one.state().multipliers() == [3].as_slice()
        && other.state().multipliers() == [11, 1].as_slice()
}

#[test]
fn two_nodes_over_one_pool(rt: HostRuntime) -> Result<(), Fail> {
    assert_eq!(rt; spare_rows(rt.alloc(), First::One)?, Some([1, 3, 6]));
    assert_eq!(rt; spare_rows(rt.alloc(), First::Other)?, Some([1, 4, 6]));
    Ok(())
}
