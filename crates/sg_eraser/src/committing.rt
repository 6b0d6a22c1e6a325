//! From the point of a node that is done to a commitment.

ghost use Rattle.std.specs.Prelude.{◌≡◌, ◌<ℤ◌, length, map, pos, IfOk};
ghost use Rattle.sg_game.specs.Counting.{IsSingle};
ghost use Rattle.sg_commit.specs.Committed.{IsCommitted};
ghost use Rattle.sg_bounds.specs.Coverage.{always, columns as table_columns};
ghost use Rattle.sg_split.specs.Matched.{AreChoiceCounts, IsMatched};
ghost use Rattle.sg_rows.specs.Rows.{place};
ghost use Rattle.sg_lp.specs.States.{IsTableau, Tableau};
ghost use Rattle.sg_search.specs.Results.{Reaches};
ghost use Rattle.sg_programs.specs.CoverFilling.{filled_counts};
ghost use Rattle.sg_programs.specs.CoverPoints.{IsCoverCommitment};
ghost use Rattle.sg_programs.specs.CoverPrograms.{cover_fact, cover_program};
ghost use Rattle.sg_dual.specs.Parts.{point_parts};
ghost use Rattle.sg_eraser.specs.Amounts.{AreWeighed, IsCoverPoint, amount_in};
ghost use Rattle.sg_eraser.specs.TableValues.{meant_column};

use crate::amounts::amount_at;
use crate::cover::Cover;
use crate::filling::fill;
use crate::table::CoverColumn;
use sg_commit::Commitment;
use sg_dual::Part;
use sg_game::Game;
use sg_split::matchings;
use std::alloc::{AllocError, Global};

/// The commitment of the counts that are filled of parts.
fn matched(
    alloc: Global,
    game: &Game,
    columns: &[CoverColumn],
    parts: &[Part],
) -> Result<Commitment, AllocError>
    requires table { map meant_column columns.now ≡ table_columns game.now }
    requires weighed { AreWeighed (length columns.now) parts.now }
    requires counts { AreChoiceCounts game.now (filled_counts game.now (amount_in game.now parts.now)) (amount_in game.now parts.now always) }
    ensures rules { IfOk result (λ k. IsCommitted k) }
    ensures matched { IfOk result (λ k. IsMatched game.now (filled_counts game.now (amount_in game.now parts.now)) (amount_in game.now parts.now always) k) }
{
    game.promises();
    let table = fill(alloc, game, columns, parts)?;
    let total = amount_at(columns, parts, CoverColumn::Always);
    let commitment = matchings(alloc, game, &table, total)?;
    let _tickets = commitment.tickets();
    Ok(commitment)
}

impl<'a> Cover<'a> {
    /// The commitment of a point, where each schedule has one target: it covers each target in just the point's amount of it, out of as many
    /// tickets as the point's whole has, and lies in the node's region.
    ///
    /// The amount of each target is filled from the first choices that hold it on, and the counts by resource and choice are taken apart into
    /// matchings.
    ///
    /// # Errors
    ///
    /// An error only where memory ran out.
    pub fn commitment_of_point(
        &self,
        alloc: Global,
        parts: &[Part],
    ) -> Result<Commitment, AllocError>
        requires single { IsSingle self.now.game }
        requires point { IsCoverPoint self.now.game self.now.fix parts.now }
        ensures commitment { (t : Tableau) → IsTableau (cover_program self.now.game self.now.fix) t → pos 0 <ℤ place t.y 0 → parts.now ≡ point_parts (cover_program self.now.game self.now.fix) t → IfOk result (λ k. IsCoverCommitment self.now.game self.now.fix t k) }

        // It reaches the bound of the multipliers' fact.
        ensures reaches { (t : Tableau) → IsTableau (cover_program self.now.game self.now.fix) t → pos 0 <ℤ place t.y 0 → parts.now ≡ point_parts (cover_program self.now.game self.now.fix) t → IfOk result (λ k. Reaches self.now.game self.now.fix (cover_fact t.y t.rho) k.tickets) }
    {
        self.game.promises();
        let commitment = matched(alloc, self.game, self.columns.as_slice(), parts)?;
        Ok(commitment)
    }
}
