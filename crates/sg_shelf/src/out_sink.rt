//! A sink over a writer of std.

ghost use Rattle.std.specs.Prelude.{◌≡◌, ◌+◌, ◌-◌, ◌^◌, ◌≤◌, None, OnOk, OnErr, true, false};
ghost use Rattle.std.specs.Bool.{OnTrue, OnFalse};
ghost use Rattle.std.specs.Io.KnownBytes.{Appends};
ghost use Rattle.sg_shelf.specs.Faults.{HasRisen, raised};
ghost use Rattle.sg_shelf.specs.WriterState.{AppendsFront};

use crate::outlet::Outlet;
use crate::sink::{Sink, SinkError};
use std::io::Write;
use std::marker::Model;

/// Writes to a writer of std, and flushes it after each put, so that no failure comes late. A write that fails,
/// also one that a signal interrupts, a write that takes nothing, and a flush that fails are a fault each.
#[derive(Drop)]
pub struct OutSink<W: Write> {
    outlet: Outlet<W>,
    puts: u64,
}

impl<W: Write> Model for OutSink<W> {
    ghost use Rattle.sg_shelf.specs.WriterState.{OutState};

    ghost Value = { OutState };

    ghost view = { λ sink. record {
      contents = sink.outlet.contents;
      faults = sink.outlet.faults;
      is_flushed = sink.outlet.is_flushed;
      puts = sink.puts;
    } };
}

impl<W: Write> OutSink<W> {
    /// A sink over the writer, with no fault.
    pub fn new(writer: W) -> OutSink<W>
        ensures { result ≡ record { contents = W.contents writer; faults = 0; is_flushed = false; puts = 0 } }
    {
        OutSink {
            outlet: Outlet::new(writer),
            puts: 0,
        }
    }
}

impl<W: Write> Sink for OutSink<W> {
    ghost state = { λ sink. record { bytes = None; puts = sink.puts; faults = sink.faults } };

    fn put(&mut self, piece: &[u8]) -> Result<(), SinkError>
        ensures count { self.old.faults ≤ self.new.faults }
        ensures last_count { self.new.faults ≤ 2 ^ 64 - 1 }
        ensures no_fault { OnOk result (self.new.faults ≡ self.old.faults) }
        ensures fault { OnErr result (HasRisen self.old.faults self.new.faults) }

        ensures put_count { self.new.puts ≡ raised self.old.puts }

        // A failing write and a failing flush are one fault each.
        ensures few_faults { self.new.faults ≤ self.old.faults + 2 }

        ensures flushed { OnOk result (self.new.is_flushed ≡ true) }

        // What the writer holds, where it says so.
        ensures whole { OnOk result (Appends self.old.contents self.new.contents piece.now) }
        ensures front { AppendsFront self.old.contents self.new.contents piece.now }
    {
        self.puts = self.puts.saturating_add(1);
        let is_written = write_whole(&mut self.outlet, piece);
        let is_flushed = self.outlet.flush();
        if is_written && is_flushed {
            Ok(())
        } else {
            Err(SinkError::Failed)
        }
    }
}

// Writes the piece, and says whether the writer took it whole.
fn write_whole<W: Write>(outlet: &mut Outlet<W>, piece: &[u8]) -> bool
    ensures whole { OnTrue result (Appends outlet.old.contents outlet.new.contents piece.now) }
    ensures front { AppendsFront outlet.old.contents outlet.new.contents piece.now }
    ensures count { outlet.old.faults ≤ outlet.new.faults }
    ensures no_fault { OnTrue result (outlet.new.faults ≡ outlet.old.faults) }
    ensures fault { OnFalse result (outlet.new.faults ≡ raised outlet.old.faults) }
{
    let mut taken = 0;
    while taken < piece.len() {
        match outlet.write(&piece[taken..]) {
            Some(count) => taken += count,
            None => return false,
        }
    }
    true
}

#[cfg(test)]
mod tests {
    use super::*;
    use std::io;
    use std::test::Fail;

    // What a writer does once it has no room left.
    #[derive(Clone, Copy)]
    enum AtEnd {
        TakesNothing,
        Fails,
    }

    // Takes at most two bytes a write, up to its room.
    #[derive(Drop)]
    struct Limited {
        taken: Vec<u8>,
        room: usize,
        at_end: AtEnd,
        flush_fails: bool,
    }

    impl Write for Limited {
        fn write(&mut self, buf: &[u8]) -> io::Result<usize> {
            if self.room == 0 {
                return match self.at_end {
                    AtEnd::TakesNothing => Ok(0),
                    AtEnd::Fails => Err(io::Error::from(io::ErrorKind::Other)),
                };
            }
            let count = buf.len().min(self.room).min(2);
            self.taken.extend_from_slice(&buf[..count])?;
            self.room -= count;
            Ok(count)
        }

        fn flush(&mut self) -> io::Result<()> {
            if self.flush_fails {
                return Err(io::Error::from(io::ErrorKind::Other));
            }
            Ok(())
        }
    }

    #[test]
    fn a_writer_takes_the_pieces(rt: HostRuntime) -> Result<(), Fail> {
        let mut written = Vec::new(rt.alloc());
        let mut sink = OutSink::new(&mut written);
        sink.put(b"three")?;
        sink.put(b"")?;
        sink.put(b" pieces")?;
        assert_eq!(rt; sink.outlet.faults(), 0);
        assert_eq!(rt; written.as_slice(), b"three pieces".as_slice());
        Ok(())
    }

    #[test]
    fn failures_are_counted(rt: HostRuntime) -> Result<(), Fail> {
        for (room, at_end, flush_fails, faults, taken) in [
            (3, AtEnd::TakesNothing, false, 1, "fiv"),
            (3, AtEnd::Fails, false, 1, "fiv"),
            (3, AtEnd::Fails, true, 2, "fiv"),
            (9, AtEnd::Fails, true, 1, "five!"),
        ] {
            let mut writer = Limited {
                taken: Vec::new(rt.alloc()),
                room,
                at_end,
                flush_fails,
            };
            let mut sink = OutSink::new(&mut writer);
            assert!(rt; sink.put(b"five!").is_err());
            assert_eq!(rt; sink.outlet.faults(), faults);
            assert_eq!(rt; writer.taken.as_slice(), taken.as_bytes());
        }
        Ok(())
    }
}
