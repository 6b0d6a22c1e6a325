//! A writer whose failures are counted.

ghost use Rattle.std.specs.Prelude.{◌≡◌, ◌-◌, ◌^◌, ◌<◌, ◌≤◌, length, take, IfSome, OnSome, IsNone, false, if◌then◌else◌};
ghost use Rattle.std.specs.Io.KnownBytes.{Appends, Keeps};
ghost use Rattle.sg_shelf.specs.Faults.{raised};

use std::io::Write;
use std::marker::Model;

/// Writes to a writer of std. A write that fails or takes nothing is a fault, and a flush that fails, and nothing
/// else is one. It knows whether all that it wrote is flushed.
#[derive(Drop)]
pub(crate) struct Outlet<W: Write> {
    writer: W,
    faults: u64,
    is_flushed: bool,
}

impl<W: Write> Model for Outlet<W> {
    ghost use Rattle.sg_shelf.specs.WriterState.{WriterState};

    ghost Value = { WriterState };

    ghost view = { λ outlet. record { contents = W.contents outlet.writer; faults = outlet.faults; is_flushed = outlet.is_flushed } };
}

impl<W: Write> Outlet<W> {
    /// An outlet over the writer, with no fault.
    pub(crate) fn new(writer: W) -> Outlet<W>
        ensures { result ≡ record { contents = W.contents writer; faults = 0; is_flushed = false } }
    {
        Outlet {
            writer,
            faults: 0,
            is_flushed: false,
        }
    }

    /// One write: how many bytes of the piece were taken.
    pub(crate) fn write(&mut self, piece: &[u8]) -> Option<usize>
        requires { 0 < length piece.now }
        ensures within { IfSome result (λ count. count ≤ length piece.now) }
        ensures some { IfSome result (λ count. 0 < count) }
        ensures bytes { IfSome result (λ count. Appends self.old.contents self.new.contents (take count piece.now)) }
        ensures no_fault { OnSome result (self.new.faults ≡ self.old.faults) }
        ensures keeps { IsNone result → Keeps self.old.contents self.new.contents }
        ensures count { self.old.faults ≤ self.new.faults }
        ensures fault { IsNone result → self.new.faults ≡ raised self.old.faults }
        ensures unflushed { self.new.is_flushed ≡ false }
    {
        self.is_flushed = false;
        match self.writer.write(piece) {
            Ok(0) | Err(_) => {
                self.faults = self.faults.saturating_add(1);
                None
            }
            Ok(count) => Some(count),
        }
    }

    /// Flushes, and says whether that went well.
    pub(crate) fn flush(&mut self) -> bool
        ensures keeps { Keeps self.old.contents self.new.contents }
        ensures count { self.old.faults ≤ self.new.faults }
        ensures last_count { self.new.faults ≤ 2 ^ 64 - 1 }
        ensures faults { self.new.faults ≡ (if result then self.old.faults else raised self.old.faults) }
        ensures flushed { self.new.is_flushed ≡ result }
    {
        // Trusted: that this flushes. No clause of std says what a flush does, so none here can tell it from none.
        let is_flushed = self.writer.flush().is_ok();
        self.is_flushed = is_flushed;
        let faults = self.faults;
        self.faults = if is_flushed {
            faults
        } else {
            faults.saturating_add(1)
        };
        is_flushed
    }

    /// The faults so far.
    #[cfg(test)]
    pub(crate) fn faults(&self) -> u64 {
        self.faults
    }
}
