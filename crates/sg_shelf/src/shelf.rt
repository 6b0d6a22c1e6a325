//! Where files are read.

ghost use Rattle.std.specs.Prelude.{◌≡◌, ◌⊎◌, ◌-◌, ◌^◌, ◌≤◌, ◌<◌, ℕ, List, Option, IfOk, IfErr, OnOk, IsErrOf, IsErrAnd, IsSome};
ghost use Rattle.sg_shelf.specs.Faults.{HasRisen, HasNotRisen};
ghost use Rattle.sg_shelf.specs.Files.{Reads, IsMissing, IsLong};
ghost use Rattle.sg_shelf.specs.Logs.{logged, log_after};
ghost use Rattle.sg_shelf.specs.ShelfErrors.{IsTooLongOrMemory, IsFailedOrMemory};
ghost use Rattle.sg_shelf.specs.States.{ShelfState};
ghost use Rattle.sg_shelf.specs.declared.log.Outcome.TheVariants as Outcome;
ghost use Rattle.sg_shelf.specs.declared.shelf.ShelfError.TheVariants.{Failed, TooLong, Memory};

use std::alloc::Global;
use thiserror::Error;

/// Why a file was not read.
#[derive(Clone, Copy, Debug, PartialEq, Eq, Error)]
pub enum ShelfError {
    /// The outside failed, or there is no such file.
    #[error("the file was not read")]
    Failed,
    /// The file has more bytes than the limit: this many were seen.
    #[error("the file is too long: {seen} bytes were seen")]
    TooLong { seen: u64 },
    /// There was no memory for the bytes.
    #[error("memory ran out while a file was read")]
    Memory,
}

/// The most bytes that may be asked of a read: 512 MiB.
pub const READ_LIMIT: usize = 536_870_912;

/// Files by name.
pub trait Shelf {
    /// What it shows of itself: the names and bytes that it holds, where it tells them; the reads that it answered, in
    /// order, each with its name, its limit and whether it gave the bytes (want of memory is no answer); and how many
    /// faults it has counted, 2^64 - 1 at most.
    ghost state: { Self → ShelfState };

    /// What its reads hand over: these bytes may be the answer to a read of this name up to this limit. Only a read that
    /// answers them says so, told or not: a caller that has to speak of bytes that were handed over can't take others.
    ghost hands_over: { List ℕ → ℕ → List ℕ → Type 0 } = { λ name limit bytes. Unit {0} };

    /// Reads a file of at most `limit` bytes, which may be `READ_LIMIT` at most.
    fn read(&mut self, alloc: Global, name: &str, limit: usize) -> Result<Vec<u8>, ShelfError>
        requires { limit ≤ READ_LIMIT }

        // No read changes the files, or whether they are told. The count never falls.
        ensures files { (state self.new).files ≡ (state self.old).files }
        ensures count { (state self.old).faults ≤ (state self.new).faults }
        ensures last_count { (state self.new).faults ≤ 2 ^ 64 - 1 }

        // Every answer but want of memory is one more entry of the log, and none is lost.
        ensures given { OnOk result ((state self.new).log ≡ logged (state self.old).log name.now limit Outcome.Given) }
        ensures not_given { IfErr result (λ error. (state self.new).log ≡ log_after error name.now limit (state self.old).log) }

        ensures bytes { IfOk result (λ bytes. Reads (state self.old).files name.now limit bytes.items) }
        ensures handed { IfOk result (λ bytes. hands_over name.now limit bytes.items) }

        // It doesn't give up by itself.
        ensures failed { IsErrOf result Failed
            → HasRisen (state self.old).faults (state self.new).faults ⊎ IsMissing (state self.old).files name.now }
        ensures missing { IsMissing (state self.old).files name.now → IsErrAnd result IsFailedOrMemory }

        // Where the files are told, a file is too long exactly where it has more bytes than the limit.
        ensures seen { (seen : ℕ) → IsErrOf result (TooLong seen) → limit < seen }
        ensures too_long { (seen : ℕ) → IsErrOf result (TooLong seen) → IsSome (state self.old).files
            → IsLong (state self.old).files name.now limit × HasNotRisen (state self.old).faults (state self.new).faults }
        ensures long { IsLong (state self.old).files name.now limit → HasNotRisen (state self.old).faults (state self.new).faults
            → IsErrAnd result IsTooLongOrMemory }

        // Want of memory leaves the shelf as it was.
        ensures memory { IsErrOf result Memory → self.new ≡ self.old };
}
