//! A reader whose failing reads are counted.

ghost use Rattle.std.specs.Prelude.{◌≡◌, ◌<◌, ◌≤◌, length, take, IfSome, OnSome, IsNone};
ghost use Rattle.std.specs.Io.KnownBytes.{Consumes, IsAtEnd, Keeps};
ghost use Rattle.sg_shelf.specs.Faults.{raised};

use std::io::Read;
use std::marker::Model;

/// Reads from a reader of std. A read that fails is a fault, and nothing else is one.
#[derive(Drop)]
pub(crate) struct Source<F: Read> {
    reader: F,
    faults: u64,
}

impl<F: Read> Model for Source<F> {
    ghost use Rattle.sg_shelf.specs.ReaderState.{ReaderState};

    ghost Value = { ReaderState };

    ghost view = { λ source. record { remaining = F.remaining source.reader; faults = source.faults } };
}

impl<F: Read> Source<F> {
    /// A source over the reader, with the faults so far.
    pub(crate) fn new(reader: F, faults: u64) -> Source<F>
        ensures { result ≡ record { remaining = F.remaining reader; faults = faults } }
    {
        Source { reader, faults }
    }

    /// The faults so far.
    pub(crate) fn faults(&self) -> u64
        ensures { result ≡ self.now.faults }
    {
        self.faults
    }

    /// One read of at most `room` bytes, into the front of the chunk.
    pub(crate) fn read_front(&mut self, chunk: &mut [u8], room: usize) -> Option<usize>
        requires { room ≤ length chunk.old }
        ensures within { IfSome result (λ count. count ≤ room) }
        ensures bytes { IfSome result (λ count. Consumes self.old.remaining self.new.remaining (take count chunk.new)) }
        ensures end { IfSome result (λ count. count ≡ 0 → 0 < room → IsAtEnd self.new.remaining) }
        ensures no_fault { OnSome result (self.new.faults ≡ self.old.faults) }
        ensures keeps { IsNone result → Keeps self.old.remaining self.new.remaining }
        ensures count { self.old.faults ≤ self.new.faults }
        ensures fault { IsNone result → self.new.faults ≡ raised self.old.faults }
    {
        match self.reader.read(&mut chunk[..room]) {
            Ok(count) => Some(count),
            Err(_) => {
                self.faults = self.faults.saturating_add(1);
                None
            }
        }
    }
}
