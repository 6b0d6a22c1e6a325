//! The ranks of choices.

ghost use Rattle.std.specs.Prelude.{ℕ};
ghost use Rattle.sg_frac.specs.Fractions.{Fraction};

use sg_frac::Frac;

/// The bounds by which the nodes are ranked that a lane may begin. They are numbered from 0.
pub trait Ranked {
    /// Which numbers name a node.
    ghost is_choice: { Self → ℕ → Type 0 };

    /// Which bound it is ranked by.
    ghost is_rank: { Self → ℕ → Fraction → Type 0 };

    /// The bound by which a node is ranked, in lowest terms.
    fn bound(&self, n: u32) -> Frac
        requires { is_choice self.now n }
        ensures { is_rank self.now n result };
}
