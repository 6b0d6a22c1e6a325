//! Laws about commitments, each as the contract of a function that does nothing.

ghost use Rattle.sg_commit.specs.Answers.{AnswersAreFirst};
ghost use Rattle.sg_commit.specs.CommitmentLaws.{KeptIsCommitment, LegalPartsStayLegal, ScaledIsSmall, SharesFixKept, SmallIsFormed};
ghost use Rattle.sg_commit.specs.SumExamples.{AreWorkedSums};
ghost use Rattle.sg_commit.specs.SumSteps.{SumsAreFormed};

/// The tickets of a commitment are distinct plays: where they are legal, they are a commitment of the game.
pub fn kept_is_commitment()
    ensures { KeptIsCommitment }
{}

/// A commitment is fixed by the shares of the plays.
pub fn shares_fix_kept()
    ensures { SharesFixKept }
{}

/// The tickets of a commitment are legal where it was made of legal parts.
pub fn legal_parts_stay_legal()
    ensures { LegalPartsStayLegal }
{}

/// Where the total times the sum of the priors is at most 2^96, nothing that is formed leaves 128 bits.
pub fn small_is_formed()
    ensures { SmallIsFormed }
{}

/// Where a scale is declared, that is so of every total up to 2^96.
pub fn scaled_is_small()
    ensures { ScaledIsSmall }
{}

/// Each sum comes where all operations under it fit, and else the first that doesn't is told, with its operands.
pub fn sums_are_formed()
    ensures { SumsAreFormed }
{}

/// Each type has an answer: a best action that gives the defender the most, and the first such action.
pub fn answers_are_first()
    ensures { AnswersAreFirst }
{}

/// The operations under the value of a small commitment, and the first that doesn't fit, worked out by hand.
pub fn worked_sums()
    ensures { AreWorkedSums }
{}
