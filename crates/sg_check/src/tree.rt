//! The tests of the tree of a game without a scale: splits by the types in their order, with facts at the nodes.

ghost use Rattle.std.specs.Prelude.{◌≡◌, ◌≢◌, ◌≤◌, ◌<◌, ◌+◌, ◌++◌, ◌∷◌, [], ℕ, List, Option, Some, false, length, map, take};
ghost use Rattle.sg_frac.specs.Fractions.{Fraction};
ghost use Rattle.sg_model.specs.Games.{action_count};
ghost use Rattle.sg_model.specs.Limits.{is_scaled};
ghost use Rattle.sg_bounds.specs.Trees.{closed, node_of, parts_of, unproved};
ghost use Rattle.sg_check.specs.Answering.{FirstAnswers, IsTopOf, NodeAnswers, PartsAnswer, RootAnswers, ShowsOnly, held_line};
ghost use Rattle.sg_check.specs.Placing.{AreActions, IsSetting};

use crate::bound::open_bound;
use crate::fact::{lines_of, test_fact};
use crate::fork::{is_fork, test_fork};
use crate::numbers::Numbers;
use crate::refusal::Refusal;
use crate::top::{Top, raised, stated_value};
use sg_frac::Frac;
use sg_game::Game;
use sg_tree::{Fact, Report, Tree};

/// The actions with one of the next type behind them, of which there are at most 8.
fn extended(game: &Game, acts: &[u16], a: u16) -> [u16; 8]
    requires acts { AreActions game.now acts.now }
    requires next { length acts.now < length game.now.types }
    requires from_one { 1 ≤ a }
    requires action { a ≤ action_count game.now (length acts.now + 1) }
    ensures list { take (length acts.now + 1) result ≡ acts.now ++ a ∷ [] }
    ensures some { take (length acts.now + 1) result ≢ [] }
    ensures acts { AreActions game.now (take (length acts.now + 1) result) }
{
    let _types = game.types();
    let mut all = [0; 8];
    for i in 0..acts.len() {
        all[i] = acts[i];
    }
    all[acts.len()] = a;
    all
}

/// A node without a fact: it has the bound of the base above.
fn pass_open(base: &Option<Frac>, top: &Top) -> Top
    ensures { (n : ℕ) (bounds more : List Fraction) → ShowsOnly more base.now → IsTopOf top.now bounds n → IsTopOf result (bounds ++ more) (n + 1) }
{
    Top {
        next: top.next.saturating_add(1),
        best: raised(&top.best, base),
    }
}

/// Tests a node with a fact.
fn test_closed(
    game: &Game,
    report: &Report,
    numbers: &Numbers,
    acts: &[u16],
    fact: &Fact,
    top: &Top,
) -> Result<Top, Refusal>
    requires setting { IsSetting game.now report.now numbers.now }
    requires some { acts.now ≢ [] }
    requires acts { AreActions game.now acts.now }
    ensures { (base : Option Fraction) → NodeAnswers game.now report.now acts.now (closed fact.now) base top.now result }
{
    match test_fact(game, report, numbers, acts, fact, top.next) {
        Ok(bound) => Ok(Top {
            next: top.next.saturating_add(lines_of(fact)),
            best: raised(&top.best, &bound),
        }),
        Err(refusal) => Err(refusal),
    }
}

/// Tests a node that these actions lead to. A node without a fact has the bound of the base above.
#[cycle(tree)]
fn test_node(
    game: &Game,
    report: &Report,
    numbers: &Numbers,
    acts: &[u16],
    base: &Option<Frac>,
    node: &Tree,
    top: &Top,
) -> Result<Top, Refusal>
    requires setting { IsSetting game.now report.now numbers.now }
    requires some { acts.now ≢ [] }
    requires acts { AreActions game.now acts.now }
    ensures { NodeAnswers game.now report.now acts.now (node_of node.now) base.now top.now result }
{
    match node {
        Tree::Unproved => Ok(pass_open(base, top)),
        Tree::Closed(fact) => test_closed(game, report, numbers, acts, fact, top),
        Tree::Split {
            l,
            base: own,
            parts,
        } => {
            let parts = parts.as_slice();
            match test_fork(game, report, numbers, acts, base, *l, own, parts, top.next) {
                Ok(fork) => {
                    let behind = Top {
                        next: fork.next,
                        best: top.best,
                    };
                    test_parts(game, report, numbers, acts, &fork.bound, parts, &behind)
                }
                Err(refusal) => Err(refusal),
            }
        }
    }
}

/// Tests the parts of a split behind these actions, in order.
#[cycle(tree)]
fn test_parts(
    game: &Game,
    report: &Report,
    numbers: &Numbers,
    acts: &[u16],
    base: &Option<Frac>,
    parts: &[Tree],
    top: &Top,
) -> Result<Top, Refusal>
    requires setting { IsSetting game.now report.now numbers.now }
    requires acts { AreActions game.now acts.now }
    requires next { length acts.now < length game.now.types }
    requires count { length parts.now ≡ action_count game.now (length acts.now + 1) }
    ensures { PartsAnswer game.now report.now acts.now (parts_of (map node_of parts.now)) base.now top.now result }
{
    let _types = game.types();
    let _actions = game.actions(acts.len() as u8 + 1);
    let mut next = top.next;
    let mut best = top.best;
    let mut a: u16 = 0;
    for part in parts {
        a += 1;
        let code = extended(game, acts, a);
        let so_far = Top { next, best };
        match test_node(
            game,
            report,
            numbers,
            &code[..acts.len() + 1],
            base,
            part,
            &so_far,
        ) {
            Ok(more) => {
                next = more.next;
                best = more.best;
            }
            Err(refusal) => return Err(refusal),
        }
    }
    Ok(Top { next, best })
}

/// Tests a root that is a split with an open base, behind its kind.
fn test_first(
    game: &Game,
    report: &Report,
    numbers: &Numbers,
    l: u8,
    parts: &[Tree],
    line: u64,
) -> Result<Top, Refusal>
    requires setting { IsSetting game.now report.now numbers.now }
    ensures { (n : ℕ) → line ≡ held_line n → FirstAnswers game.now report.now n l (parts_of (map node_of parts.now)) result }
{
    if !is_fork(game, report, &[], l, parts) {
        return Err(Refusal { line, reason: 5 });
    }
    let top = Top {
        next: line.saturating_add(2),
        best: stated_value(report),
    };
    let bound = Some(open_bound(game, numbers));
    test_parts(game, report, numbers, &[], &bound, parts, &top)
}

/// Tests the tree: its root, and then its parts.
pub(crate) fn test_split(
    game: &Game,
    report: &Report,
    numbers: &Numbers,
    line: u64,
) -> Result<Top, Refusal>
    requires unscaled { is_scaled game.now ≡ false }
    requires setting { IsSetting game.now report.now numbers.now }
    ensures { (n : ℕ) → line ≡ held_line n → RootAnswers game.now report.now n (node_of report.now.tree) result }
{
    match &report.tree {
        Tree::Unproved => Err(Refusal { line, reason: 5 }),
        Tree::Closed(_) => Err(Refusal { line, reason: 5 }),
        Tree::Split { l, base, parts } => match base {
            Some(_) => Err(Refusal { line, reason: 5 }),
            None => test_first(game, report, numbers, *l, parts.as_slice(), line),
        },
    }
}
