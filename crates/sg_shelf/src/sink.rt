//! Where text is written.

ghost use Rattle.std.specs.Prelude.{◌≡◌, ◌-◌, ◌^◌, ◌≤◌, ℕ, List, Option, OnOk, OnErr};
ghost use Rattle.sg_shelf.specs.Faults.{HasRisen, raised};
ghost use Rattle.sg_shelf.specs.States.{SinkState};
ghost use Rattle.sg_shelf.specs.Taken.{Takes, TakesFront};

use thiserror::Error;

/// Why a piece was not taken whole.
#[derive(Clone, Copy, Debug, PartialEq, Eq, Error)]
pub enum SinkError {
    /// The outside failed.
    #[error("the text was not written")]
    Failed,
}

/// Takes bytes.
pub trait Sink {
    /// What it shows of itself: the bytes that it took, where it tells them, how many puts it has been given and how
    /// many faults it has counted, both 2^64 - 1 at most.
    ghost state: { Self → SinkState };

    /// Adds the piece to what it took, or where it fails a front of it.
    fn put(&mut self, piece: &[u8]) -> Result<(), SinkError>
        // The count never falls.
        ensures count { (state self.old).faults ≤ (state self.new).faults }
        ensures last_count { (state self.new).faults ≤ 2 ^ 64 - 1 }
        ensures put_count { (state self.new).puts ≡ raised (state self.old).puts }

        ensures whole { OnOk result (Takes (state self.old).bytes (state self.new).bytes piece.now) }
        ensures front { OnErr result (TakesFront (state self.old).bytes (state self.new).bytes piece.now) }

        // It doesn't give up by itself.
        ensures failed { OnErr result (HasRisen (state self.old).faults (state self.new).faults) };
}
