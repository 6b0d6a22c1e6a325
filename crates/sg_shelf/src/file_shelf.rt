//! A shelf over the files of std.

ghost use Rattle.std.specs.Prelude.{◌≡◌, ◌+◌, ◌*◌, ◌-◌, ◌^◌, ◌<◌, ◌≤◌, ◌++◌, [], min, max, length, ℕ, None, IfOk, IfErr, OnOk, IfSome, IsErrOf, vec_len, vec_capacity};
ghost use Rattle.std.specs.Io.KnownBytes.{Consumes, IsAtEnd};
ghost use Rattle.sg_shelf.specs.Logs.{logged, log_after};
ghost use Rattle.sg_shelf.specs.Opened.{IsWholeFile, IsLongFile, IsUnread};
ghost use Rattle.sg_shelf.specs.ReaderState.{GivesAtMost, MayHaveMore};
ghost use Rattle.sg_shelf.specs.ShelfErrors.{IsFailedOrMemory, faults_after};
ghost use Rattle.sg_shelf.specs.declared.shelf.TheConstants.{READ_LIMIT};
ghost use Rattle.sg_shelf.specs.declared.log.Outcome.TheVariants as Outcome;
ghost use Rattle.sg_shelf.specs.declared.shelf.ShelfError.TheVariants.{Failed, TooLong, Memory};

use crate::log::{Reading, append, outcome_of, prepared};
use crate::opener::{Opener, PathOpener};
use crate::shelf::{Shelf, ShelfError};
use crate::source::Source;
use std::alloc::{AllocError, Global};
use std::io::Read;
use std::marker::Model;
use std::rt::Files;

/// The most bytes that one read takes.
const CHUNK: usize = 65_536;

/// Reads the files that an opener opens. A file that doesn't open and a read that fails, also one that a signal
/// interrupts, are a fault each. Clauses see it as its log and its count.
#[derive(Drop)]
pub struct FileShelf<O: Opener> {
    opener: O,
    log: Vec<Reading>,
    faults: u64,
}

impl<O: Opener> Model for FileShelf<O> {
    ghost use Rattle.sg_shelf.specs.Logs.{log_of};
    ghost use Rattle.sg_shelf.specs.States.{FileShelfState};

    ghost Value = { FileShelfState };

    ghost view = { λ shelf. record { log = log_of shelf.log.items; faults = shelf.faults } };
}

impl<R: Files + AllocGlobal> FileShelf<PathOpener<R>> {
    /// A shelf over the files of std, where a name is a path, that has been read no time. `files` is the runtime or a
    /// reference to it.
    pub fn new(files: R) -> FileShelf<PathOpener<R>>
        ensures { result ≡ record { log = []; faults = 0 } }
    {
        let log = Vec::new(files.alloc());
        FileShelf {
            opener: PathOpener::new(files),
            log,
            faults: 0,
        }
    }
}

impl<O: Opener> Shelf for FileShelf<O> {
    ghost state = { λ shelf. record { files = None; log = shelf.log; faults = shelf.faults } };

    ghost hands_over = { λ name limit bytes. IsWholeFile O.opens name bytes };

    fn read(&mut self, alloc: Global, name: &str, limit: usize) -> Result<Vec<u8>, ShelfError>
        requires { limit ≤ READ_LIMIT }

        ensures count { self.old.faults ≤ self.new.faults }
        ensures last_count { self.new.faults ≤ 2 ^ 64 - 1 }
        ensures within { IfOk result (λ bytes. vec_len bytes ≤ limit) }
        ensures long { (seen : ℕ) → IsErrOf result (TooLong seen) → seen ≡ limit + 1 }

        // It answers what the opened file had left, where its reader tells that: the whole, or that it is more than the limit.
        ensures whole { IfOk result (λ bytes. IsWholeFile O.opens name.now bytes.items) }
        ensures too_long { (seen : ℕ) → IsErrOf result (TooLong seen) → IsLongFile O.opens name.now limit }
        ensures unread { IsErrOf result Failed → IsUnread O.opens O.refuses name.now }

        // It logs each read unless it wants memory, and counts a fault exactly where it answers that it failed.
        ensures given { OnOk result (self.new.log ≡ logged self.old.log name.now limit Outcome.Given) }
        ensures not_given { IfErr result (λ error. self.new.log ≡ log_after error name.now limit self.old.log) }
        ensures no_fault { OnOk result (self.new.faults ≡ self.old.faults) }
        ensures fault { IfErr result (λ error. self.new.faults ≡ faults_after error self.old.faults) }
        ensures memory { IsErrOf result Memory → self.new ≡ self.old }
    {
        let mut faults = self.faults;
        let prepared = match prepared(alloc, &mut self.log, name) {
            Ok(prepared) => prepared,
            Err(_) => return Err(ShelfError::Memory),
        };
        let answer = read_named(alloc, &self.opener, name, limit, &mut faults);
        self.faults = faults;
        let outcome = outcome_of(&answer);
        append(&mut self.log, prepared, limit, outcome);
        answer
    }
}

// The bytes of the file of that name, where it opens.
fn read_named<O: Opener>(
    alloc: Global,
    opener: &O,
    name: &str,
    limit: usize,
    faults: &mut u64,
) -> Result<Vec<u8>, ShelfError>
    requires { limit ≤ READ_LIMIT }
    ensures within { IfOk result (λ bytes. vec_len bytes ≤ limit) }
    ensures whole { IfOk result (λ bytes. IsWholeFile O.opens name.now bytes.items) }
    ensures long { (seen : ℕ) → IsErrOf result (TooLong seen) → seen ≡ limit + 1 }
    ensures too_long { (seen : ℕ) → IsErrOf result (TooLong seen) → IsLongFile O.opens name.now limit }
    ensures unread { IsErrOf result Failed → IsUnread O.opens O.refuses name.now }
    ensures count { faults.old ≤ faults.new }
    ensures last_count { faults.new ≤ 2 ^ 64 - 1 }
    ensures no_fault { OnOk result (faults.new ≡ faults.old) }
    ensures fault { IfErr result (λ error. faults.new ≡ faults_after error faults.old) }
{
    match opener.open(name) {
        Ok(file) => read_opened(alloc, file, limit, faults),
        Err(_) => {
            *faults = faults.saturating_add(1);
            Err(ShelfError::Failed)
        }
    }
}

// The bytes of an opened file.
#[tactic(auto, using(crate::proofs::Readings::gave_all))]
fn read_opened<F: Read + Drop>(
    alloc: Global,
    file: F,
    limit: usize,
    faults: &mut u64,
) -> Result<Vec<u8>, ShelfError>
    requires { limit ≤ READ_LIMIT }
    ensures within { IfOk result (λ bytes. vec_len bytes ≤ limit) }
    ensures whole { IfOk result (λ bytes. IfSome (F.remaining file) (λ all. bytes.items ≡ all)) }
    ensures long { (seen : ℕ) → IsErrOf result (TooLong seen) → seen ≡ limit + 1 }
    ensures too_long { (seen : ℕ) → IsErrOf result (TooLong seen) → MayHaveMore limit (F.remaining file) }
    ensures count { faults.old ≤ faults.new }
    ensures last_count { faults.new ≤ 2 ^ 64 - 1 }
    ensures no_fault { OnOk result (faults.new ≡ faults.old) }
    ensures fault { IfErr result (λ error. faults.new ≡ faults_after error faults.old) }
{
    let mut source = Source::new(file, *faults);
    let answer = whole_file(alloc, &mut source, limit);
    *faults = source.faults();
    answer
}

// The bytes that the file has left, where these are no more than the limit.
#[tactic(auto, using(crate::proofs::Readings::gave_more))]
fn whole_file<F: Read>(
    alloc: Global,
    source: &mut Source<F>,
    limit: usize,
) -> Result<Vec<u8>, ShelfError>
    requires { limit ≤ READ_LIMIT }
    ensures within { IfOk result (λ bytes. vec_len bytes ≤ limit) }
    ensures bytes { IfOk result (λ bytes. Consumes source.old.remaining source.new.remaining bytes.items) }
    ensures end { OnOk result (IsAtEnd source.new.remaining) }
    ensures long { (seen : ℕ) → IsErrOf result (TooLong seen) → seen ≡ limit + 1 }
    ensures too_long { (seen : ℕ) → IsErrOf result (TooLong seen) → MayHaveMore limit source.old.remaining }
    ensures most { GivesAtMost (limit + 1) source.old.remaining source.new.remaining }
    ensures count { source.old.faults ≤ source.new.faults }
    ensures no_fault { OnOk result (source.new.faults ≡ source.old.faults) }
    ensures fault { IfErr result (λ error. source.new.faults ≡ faults_after error source.old.faults) }
{
    let bytes = first_bytes(alloc, source, limit + 1)?;
    if bytes.len() > limit {
        return Err(ShelfError::TooLong {
            seen: bytes.len() as u64,
        });
    }
    Ok(bytes)
}

// The bytes that the file has left, or the first of them where there are more than `most`.
#[tactic(auto, using(crate::proofs::Readings::gives_few, crate::proofs::Readings::gives_few_kept))]
fn first_bytes<F: Read>(
    alloc: Global,
    source: &mut Source<F>,
    most: usize,
) -> Result<Vec<u8>, ShelfError>
    requires { most ≤ READ_LIMIT + 1 }
    ensures within { IfOk result (λ bytes. vec_len bytes ≤ most) }
    ensures bytes { IfOk result (λ bytes. Consumes source.old.remaining source.new.remaining bytes.items) }
    ensures end { IfOk result (λ bytes. vec_len bytes < most → IsAtEnd source.new.remaining) }
    ensures most { GivesAtMost most source.old.remaining source.new.remaining }
    ensures err { IfErr result IsFailedOrMemory }
    ensures count { source.old.faults ≤ source.new.faults }
    ensures no_fault { OnOk result (source.new.faults ≡ source.old.faults) }
    ensures fault { IfErr result (λ error. source.new.faults ≡ faults_after error source.old.faults) }
{
    let mut bytes = Vec::new(alloc);
    let mut chunk = [0u8; CHUNK];
    while bytes.len() < most {
        let room = CHUNK.min(most - bytes.len());
        let count = match source.read_front(&mut chunk, room) {
            Some(0) => return Ok(bytes),
            Some(count) => count,
            None => return Err(ShelfError::Failed),
        };
        if add(&mut bytes, &chunk[..count], most).is_err() {
            return Err(ShelfError::Memory);
        }
    }
    Ok(bytes)
}

// Adds the piece.
fn add(bytes: &mut Vec<u8>, piece: &[u8], most: usize) -> Result<(), AllocError>
    requires { vec_len bytes.old + length piece.now ≤ most }
    ensures { OnOk result (bytes.new.items ≡ bytes.old.items ++ piece.now) }
{
    make_room(bytes, bytes.len() + piece.len(), most)?;
    bytes.extend_from_slice(piece)
}

// Room for so many bytes: at least twice the room of before, but never more than `most`.
fn make_room(bytes: &mut Vec<u8>, needed: usize, most: usize) -> Result<(), AllocError>
    requires { needed ≤ most }
    ensures items { bytes.new.items ≡ bytes.old.items }
    ensures room { OnOk result (needed ≤ vec_capacity bytes.new) }
    ensures doubled { vec_capacity bytes.old < needed → OnOk result (min most (2 * vec_capacity bytes.old) ≤ vec_capacity bytes.new) }
    ensures most { vec_capacity bytes.new ≤ max (vec_capacity bytes.old) most }
{
    if needed <= bytes.capacity() {
        return Ok(());
    }
    let wanted = bytes.capacity().saturating_mul(2).max(needed).min(most);
    bytes.reserve_exact(wanted - bytes.len())
}

#[cfg(test)]
mod tests {
    use super::*;
    use crate::log::{Outcome, is_logged};
    use crate::shelf::Shelf;
    use std::test::Fail;
    use std::{env, fs, io, process};

    // Gives its bytes in pieces of at most three, and then ends or fails.
    #[derive(Drop)]
    struct Pieces<'a> {
        left: &'a [u8],
        fails: bool,
    }

    impl Read for Pieces<'_> {
        fn read(&mut self, buf: &mut [u8]) -> io::Result<usize> {
            if self.left.is_empty() && self.fails {
                return Err(io::Error::from(io::ErrorKind::Other));
            }
            let count = self.left.len().min(buf.len()).min(3);
            buf[..count].copy_from_slice(&self.left[..count]);
            self.left = &self.left[count..];
            Ok(count)
        }
    }

    fn seven_bytes(fails: bool) -> Pieces<'static> {
        Pieces {
            left: b"seven c",
            fails,
        }
    }

    #[test]
    fn a_reader_is_read_to_its_end(rt: HostRuntime) -> Result<(), Fail> {
        let alloc = rt.alloc();
        let bytes = whole_file(alloc, &mut Source::new(seven_bytes(false), 0), 7)?;
        assert_eq!(rt; bytes.as_slice(), b"seven c".as_slice());
        let long = whole_file(alloc, &mut Source::new(seven_bytes(false), 0), 6);
        assert!(rt; matches!(long, Err(ShelfError::TooLong { seen: 7 })));
        let failed = whole_file(alloc, &mut Source::new(seven_bytes(true), 0), 9);
        assert!(rt; matches!(failed, Err(ShelfError::Failed)));
        Ok(())
    }

    #[test]
    fn files_are_read(rt: HostRuntime) -> Result<(), Fail> {
        let alloc = rt.alloc();
        let mut shelf = FileShelf::new(&rt);

        let path = format!(in alloc;
            "{}/sg_shelf-{}",
            env::temp_dir(&rt)?.display(),
            process::id(rt.process())
        )?;
        let written = vec![in alloc; 7u8; 200_001]?;
        fs::write(&rt, path.as_str(), written.as_slice())?;
        let whole = shelf.read(alloc, &path, 200_001)?;
        let long = shelf.read(alloc, &path, 200_000);
        fs::remove_file(&rt, path.as_str())?;
        assert!(rt; whole == written);
        assert!(rt; matches!(long, Err(ShelfError::TooLong { seen: 200_001 })));

        assert!(rt; shelf.read(alloc, "/dev/null", 0)?.is_empty());
        let endless = shelf.read(alloc, "/dev/zero", 10);
        assert!(rt; matches!(endless, Err(ShelfError::TooLong { seen: 11 })));
        assert_eq!(rt; shelf.faults, 0);

        for (name, faults) in [("/no/such/file", 1), ("/", 2)] {
            let failed = shelf.read(alloc, name, 10);
            assert!(rt; matches!(failed, Err(ShelfError::Failed)), "{name}");
            assert_eq!(rt; shelf.faults, faults, "{name}");
        }
        assert!(rt;
            is_logged(
                &shelf.log,
                &[
                    (&path, 200_001, Outcome::Given),
                    (&path, 200_000, Outcome::TooLong),
                    ("/dev/null", 0, Outcome::Given),
                    ("/dev/zero", 10, Outcome::TooLong),
                    ("/no/such/file", 10, Outcome::Failed),
                    ("/", 10, Outcome::Failed),
                ],
            )
        );
        Ok(())
    }
}
