//! A shelf in memory.

ghost use Rattle.std.specs.Prelude.{◌≡◌, ◌≢◌, [], ◌-◌, ◌^◌, ◌≤◌, Ok, Err, IfOk, OnOk, IfErr, Some, option_copied};
ghost use Rattle.sg_shelf.specs.Files.{bytes_under};
ghost use Rattle.sg_shelf.specs.Logs.{log_of};
ghost use Rattle.sg_shelf.specs.NamedFiles.{files_of};
ghost use Rattle.sg_shelf.specs.MemShelfState.{MemShelfState, answer_of, read_is_fault, read_answer, after_read, ReadFails};
ghost use Rattle.sg_shelf.specs.declared.shelf.ShelfError.TheVariants.{Memory};

use crate::faults::raised_unless;
use crate::log::{Reading, append, outcome_of, prepared};
use crate::shelf::{Shelf, ShelfError};
use std::alloc::Global;
use std::marker::Model;

/// A file: its name and its bytes.
#[derive(Debug, Drop)]
pub struct NamedBytes {
    pub name: String,
    pub bytes: Vec<u8>,
}

/// Holds files in memory, and tells them. Of two files with one name the first counts. A read is a fault where
/// its number, counted from 1, is in `fails`, and where the count of reads or that of faults stands at its last
/// value. A read that finds no memory is not counted, and not logged.
#[derive(Debug, Drop)]
pub struct MemShelf {
    files: Vec<NamedBytes>,
    fails: Vec<u64>,
    log: Vec<Reading>,
    calls: u64,
    faults: u64,
}

impl Model for MemShelf {
    ghost use Rattle.sg_shelf.specs.Logs.{log_of};
    ghost use Rattle.sg_shelf.specs.NamedFiles.{files_of};
    ghost use Rattle.sg_shelf.specs.MemShelfState.{MemShelfState};

    ghost Value = { MemShelfState };

    ghost view = { λ shelf. record {
      files = files_of shelf.files.items;
      fails = shelf.fails.items;
      log = log_of shelf.log.items;
      calls = shelf.calls;
      faults = shelf.faults;
    } };
}

impl MemShelf {
    /// A shelf of these files, that has been read no time.
    pub fn new(files: Vec<NamedBytes>, fails: Vec<u64>) -> MemShelf
        ensures { result ≡ record { files = files_of files.items; fails = fails.items; log = []; calls = 0; faults = 0 } }
    {
        let log = Vec::new(*fails.allocator());
        MemShelf {
            files,
            fails,
            log,
            calls: 0,
            faults: 0,
        }
    }

    /// The reads that it answered, in order.
    pub fn log(&self) -> &[Reading]
        ensures { log_of result.now ≡ self.now.log }
    {
        &self.log
    }
}

// The bytes of the first file with the name.
fn bytes_of<'a>(files: &'a [NamedBytes], name: &str) -> Option<&'a [u8]>
    ensures { option_copied result ≡ bytes_under (files_of files.now) name.now }
{
    for file in files {
        if file.name.as_str() == name {
            return Some(file.bytes.as_slice());
        }
    }
    None
}

// What a read up to the limit answers of the bytes under a name.
fn answer_of(alloc: Global, bytes: Option<&[u8]>, limit: usize) -> Result<Vec<u8>, ShelfError>
    ensures answer { IfOk result (λ given. answer_of (option_copied bytes.entry) limit ≡ Ok given.items) }
    ensures fails { IfErr result (λ error. error ≢ Memory → answer_of (option_copied bytes.entry) limit ≡ Err error) }
{
    let bytes = match bytes {
        Some(bytes) => bytes,
        None => return Err(ShelfError::Failed),
    };
    if bytes.len() > limit {
        return Err(ShelfError::TooLong {
            seen: bytes.len() as u64,
        });
    }
    match Vec::from_slice(alloc, bytes) {
        Ok(bytes) => Ok(bytes),
        Err(_) => Err(ShelfError::Memory),
    }
}

impl MemShelf {
    // Whether the next read is a fault.
    fn is_due_to_fail(&self) -> bool
        ensures { result ≡ read_is_fault self.now }
    {
        let is_spent = self.calls == u64::MAX || self.faults == u64::MAX;
        is_spent || self.fails.contains(&self.calls.saturating_add(1))
    }

    // What the next read answers.
    fn answer(&self, alloc: Global, name: &str, limit: usize) -> Result<Vec<u8>, ShelfError>
        ensures answer { IfOk result (λ given. read_answer self.now name.now limit ≡ Ok given.items) }
        ensures fails { IfErr result (λ error. error ≢ Memory → read_answer self.now name.now limit ≡ Err error) }
    {
        if self.is_due_to_fail() {
            return Err(ShelfError::Failed);
        }
        answer_of(alloc, bytes_of(&self.files, name), limit)
    }
}

impl Shelf for MemShelf {
    ghost state = { λ shelf. record { files = Some shelf.files; log = shelf.log; faults = shelf.faults } };

    fn read(&mut self, alloc: Global, name: &str, limit: usize) -> Result<Vec<u8>, ShelfError>
        ensures count { self.old.faults ≤ self.new.faults }
        ensures last_count { self.new.faults ≤ 2 ^ 64 - 1 }

        ensures answer { IfOk result (λ bytes. read_answer self.old name.now limit ≡ Ok bytes.items) }
        ensures after { OnOk result (self.new ≡ after_read self.old name.now limit) }
        ensures fails { IfErr result (ReadFails self.old self.new name.now limit) }
    {
        let calls = self.calls.saturating_add(1);
        let faults = raised_unless(!self.is_due_to_fail(), self.faults);
        let prepared = match prepared(alloc, &mut self.log, name) {
            Ok(prepared) => prepared,
            Err(_) => return Err(ShelfError::Memory),
        };
        let answer = self.answer(alloc, name, limit);
        let outcome = outcome_of(&answer);
        if outcome.is_some() {
            self.calls = calls;
            self.faults = faults;
        }
        append(&mut self.log, prepared, limit, outcome);
        answer
    }
}

#[cfg(test)]
mod tests {
    use super::*;
    use crate::log::{Outcome, is_logged};
    use std::alloc::AllocError;
    use std::test::Fail;

    fn file(alloc: Global, name: &str, bytes: &[u8]) -> Result<NamedBytes, AllocError> {
        Ok(NamedBytes {
            name: String::from_str(alloc, name)?,
            bytes: Vec::from_slice(alloc, bytes)?,
        })
    }

    // Two files are called a.
    fn files(alloc: Global) -> Result<Vec<NamedBytes>, AllocError> {
        let mut files = Vec::new(alloc);
        files.push(file(alloc, "a", &[1, 2, 3])?)?;
        files.push(file(alloc, "b", &[])?)?;
        files.push(file(alloc, "a", &[9])?)?;
        Ok(files)
    }

    #[test]
    fn reads_in_turn(rt: HostRuntime) -> Result<(), Fail> {
        let alloc = rt.alloc();
        let mut shelf = MemShelf::new(files(alloc)?, vec![in alloc; 5, 2]?);
        let three: &[u8] = &[1, 2, 3];
        let none: &[u8] = &[];
        let failed = ShelfError::Failed;
        for (name, limit, answer, faults) in [
            ("a", 3u8, Ok(three), 0),
            ("a", 3, Err(failed), 1),
            ("a", 2, Err(ShelfError::TooLong { seen: 3 }), 1),
            ("c", 9, Err(failed), 1),
            ("c", 9, Err(failed), 2),
            ("b", 0, Ok(none), 2),
        ] {
            let read = shelf.read(alloc, name, usize::from(limit));
            let read = match &read {
                Ok(bytes) => Ok(bytes.as_slice()),
                Err(error) => Err(*error),
            };
            assert!(rt; read == answer, "{name} up to {limit}");
            assert_eq!(rt; shelf.faults, faults, "{name} up to {limit}");
        }
        assert_eq!(rt; shelf.calls, 6);
        assert!(rt;
            is_logged(
                &shelf.log,
                &[
                    ("a", 3, Outcome::Given),
                    ("a", 3, Outcome::Failed),
                    ("a", 2, Outcome::TooLong),
                    ("c", 9, Outcome::Failed),
                    ("c", 9, Outcome::Failed),
                    ("b", 0, Outcome::Given),
                ],
            )
        );
        Ok(())
    }

    #[test]
    fn a_count_at_its_last_value_stays_there(rt: HostRuntime) -> Result<(), Fail> {
        let alloc = rt.alloc();
        const LAST: u64 = u64::MAX;
        for (calls, faults, fails) in [
            (LAST - 1, LAST - 1, false),
            (LAST, 0, true),
            (0, LAST, true),
        ] {
            let mut shelf = MemShelf {
                files: files(alloc)?,
                fails: Vec::new(alloc),
                log: Vec::new(alloc),
                calls,
                faults,
            };
            let read = shelf.read(alloc, "a", 3);
            assert_eq!(rt; matches!(read, Err(ShelfError::Failed)), fails);
            assert_eq!(rt; shelf.calls, calls.saturating_add(1));
            assert_eq!(rt;
                shelf.faults,
                if fails {
                    faults.saturating_add(1)
                } else {
                    faults
                }
            );
        }
        Ok(())
    }
}
