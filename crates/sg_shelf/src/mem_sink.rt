//! A sink in memory.

ghost use Rattle.std.specs.Prelude.{◌≡◌, [], ◌-◌, ◌^◌, ◌≤◌, IfOk, OnOk, OnErr, Some, is_err, take, if◌then◌else◌};
ghost use Rattle.sg_shelf.specs.Faults.{HasRisen};
ghost use Rattle.sg_shelf.specs.Taken.{Takes, TakesFront};
ghost use Rattle.sg_shelf.specs.MemSinkState.{put_fails, after_put};

use crate::sink::{Sink, SinkError};
use std::alloc::{AllocError, Global};
use std::marker::Model;

/// 16 MiB, in bytes.
const RESERVE: usize = 16_777_216;

/// Takes bytes in memory, and tells them. A put fails where its number, counted from 1, is in `fails`, and then
/// takes only the first `keep` bytes of the piece. It also fails, and takes nothing, where the reserve of 16 MiB
/// has no room, or where the count of puts or that of faults stands at its last value.
#[derive(Debug, Drop)]
pub struct MemSink {
    bytes: Vec<u8>,
    fails: Vec<u64>,
    keep: usize,
    calls: u64,
    faults: u64,
}

impl Model for MemSink {
    ghost use Rattle.std.specs.Prelude.{◌≤◌, vec_capacity, vec_len};
    ghost use Rattle.sg_shelf.specs.MemSinkState.{MemSinkState};

    ghost Value = { MemSinkState };

    ghost view = { λ sink. record {
      bytes = sink.bytes.items;
      fails = sink.fails.items;
      keep = sink.keep;
      calls = sink.calls;
      faults = sink.faults;
    } };

    ghost invariant = { λ sink. (16777216 ≤ vec_capacity sink.bytes) × (vec_len sink.bytes ≤ 16777216) };
}

impl MemSink {
    /// A sink that has taken nothing.
    pub fn new(alloc: Global, fails: Vec<u64>, keep: usize) -> Result<MemSink, AllocError>
        ensures { IfOk result (λ sink. sink ≡ record { bytes = []; fails = fails.items; keep = keep; calls = 0; faults = 0 }) }
    {
        Ok(MemSink {
            bytes: Vec::with_capacity(alloc, RESERVE)?,
            fails,
            keep,
            calls: 0,
            faults: 0,
        })
    }

    /// The bytes that it took.
    pub fn bytes(&self) -> &[u8]
        ensures { result.now ≡ self.now.bytes }
    {
        &self.bytes
    }
}

// The first bytes of the piece, or all of a shorter one, where the put is to fail, and else the piece.
fn due(piece: &[u8], fails: bool, keep: usize) -> &[u8]
    ensures { result.now ≡ (if fails then take keep piece.now else piece.now) }
{
    if fails && keep < piece.len() {
        &piece[..keep]
    } else {
        piece
    }
}

impl Sink for MemSink {
    ghost state = { λ sink. record { bytes = Some sink.bytes; puts = sink.calls; faults = sink.faults } };

    fn put(&mut self, piece: &[u8]) -> Result<(), SinkError>
        ensures count { self.old.faults ≤ self.new.faults }
        ensures last_count { self.new.faults ≤ 2 ^ 64 - 1 }

        ensures fails { is_err result ≡ put_fails self.old piece.now }
        ensures after { self.new ≡ after_put self.old piece.now }
    {
        let is_spent = self.calls == u64::MAX || self.faults == u64::MAX;
        self.calls = self.calls.saturating_add(1);
        let fails = self.fails.contains(&self.calls);
        let due = due(piece, fails, self.keep);
        if is_spent || due.len() > RESERVE - self.bytes.len() {
            self.faults = self.faults.saturating_add(1);
            return Err(SinkError::Failed);
        }
        self.bytes.extend_from_slice(due).unwrap();
        if fails {
            self.faults += 1;
            return Err(SinkError::Failed);
        }
        Ok(())
    }
}

#[cfg(test)]
mod tests {
    use super::*;
    use std::test::Fail;

    #[test]
    fn a_put_that_fails_keeps_a_front(rt: HostRuntime) -> Result<(), Fail> {
        let alloc = rt.alloc();
        for (keep, taken) in [(0, "oneend"), (2, "onetwend"), (9, "onetwo!end")] {
            let mut sink = MemSink::new(alloc, vec![in alloc; 2]?, keep)?;
            sink.put(b"one")?;
            assert!(rt; sink.put(b"two!").is_err(), "{keep}");
            sink.put(b"end")?;
            assert_eq!(rt; sink.bytes(), taken.as_bytes(), "{keep}");
            assert_eq!(rt; sink.faults, 1, "{keep}");
        }
        Ok(())
    }

    #[test]
    fn the_reserve_is_16_mib(rt: HostRuntime) -> Result<(), Fail> {
        let alloc = rt.alloc();
        let long = vec![in alloc; 7u8; 16_777_217]?;
        let mut sink = MemSink::new(alloc, vec![in alloc; 4]?, 1)?;
        assert!(rt; sink.put(&long).is_err());
        assert!(rt; sink.bytes().is_empty());
        sink.put(&long[2..])?;
        assert!(rt; sink.put(b"ab").is_err());
        assert_eq!(rt; sink.bytes().len(), 16_777_215);

        // This one is to fail, and the one byte due fits.
        assert!(rt; sink.put(b"ab").is_err());
        assert_eq!(rt; sink.bytes().len(), 16_777_216);
        sink.put(b"")?;
        assert!(rt; sink.put(b"c").is_err());
        assert_eq!(rt; sink.faults, 4);

        let mut sink = MemSink::new(alloc, Vec::new(alloc), 0)?;
        sink.put(&long[1..])?;
        assert_eq!(rt; sink.bytes().len(), 16_777_216);
        Ok(())
    }

    #[test]
    fn a_count_at_its_last_value_stays_there(rt: HostRuntime) -> Result<(), Fail> {
        let alloc = rt.alloc();
        const LAST: u64 = u64::MAX;
        for (calls, faults, fails) in [
            (LAST - 1, LAST - 1, false),
            (LAST, 0, true),
            (0, LAST, true),
        ] {
            let mut sink = MemSink::new(alloc, Vec::new(alloc), 0)?;
            sink.calls = calls;
            sink.faults = faults;
            assert_eq!(rt; sink.put(b"one").is_err(), fails);
            assert_eq!(rt; sink.bytes().is_empty(), fails);
            assert_eq!(rt; sink.calls, calls.saturating_add(1));
            assert_eq!(rt;
                sink.faults,
                if fails {
                    faults.saturating_add(1)
                } else {
                    faults
                }
            );
        }
        Ok(())
    }
}
