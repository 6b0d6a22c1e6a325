//! The lines of a text, one after the other.

ghost use Rattle.std.specs.Prelude.{◌≡◌, ◌+◌, ◌<◌, ◌^◌, length, IfSome, IfOk, codes};
ghost use Rattle.std.specs.Option.{option_copied};
ghost use Rattle.sg_cert.specs.Lines.{next_line, line_at, at_line, start, ended};
ghost use Rattle.sg_cert_reader.specs.Steps.{ReadsLines};

use crate::field::split_at_byte;
use sg_cert::ReportFault;
use std::marker::Model;

/// Where reading stands.
#[derive(Drop)]
pub struct Lines<'a> {
    rest: &'a [u8],
    line: u64,
}

impl<'a> Model for Lines<'a> {
    ghost use Rattle.std.specs.Prelude.{◌+◌, ◌<◌, ◌^◌, length};
    ghost use Rattle.sg_cert.specs.Place.{Place};

    ghost Value = { Place };

    ghost view = { λ l. record { rest = l.rest.now; line = l.line } };

    ghost invariant = { λ l. l.line + length l.rest.now + 1 < 2 ^ 64 };
}

impl<'a> Lines<'a> {
    /// Before line 1.
    pub fn new(bytes: &'a [u8]) -> Lines<'a>
        ensures { result ≡ start bytes.now }
    {
        Lines {
            rest: bytes,
            line: 0,
        }
    }

    /// The number of the last line read.
    pub fn line(&self) -> u64
        ensures { result ≡ self.now.line }
    {
        self.line
    }

    /// The next line without its newline; it is there and ended, or the fault is 2.
    pub fn next(&mut self) -> Result<&'a [u8], ReportFault>
        ensures { ReadsLines (λ l. l.now) result self.new (line_at self.old) }
    {
        match split_at_byte(self.rest, b'\n') {
            None => Err(ReportFault {
                line: self.line + 1,
                reason: 2,
            }),
            Some((line, after)) => {
                self.line += 1;
                self.rest = after;
                Ok(line)
            }
        }
    }

    /// The next line, which stays the next, where it is there and ended.
    pub fn peek(&self) -> Option<&'a [u8]>
        ensures { option_copied result ≡ next_line self.now }
    {
        match split_at_byte(self.rest, b'\n') {
            None => None,
            Some((line, _)) => Some(line),
        }
    }

    /// How many bytes are left.
    pub fn left(&self) -> usize
        ensures { result ≡ length self.now.rest }
    {
        self.rest.len()
    }

    /// The fault of the last line read.
    pub fn fault(&self, reason: u8) -> ReportFault
        ensures { result ≡ record { line = self.now.line; reason = reason } }
    {
        ReportFault {
            line: self.line,
            reason,
        }
    }

    /// What was read in the last line, or its fault.
    pub fn within<T: Drop>(&self, read: Result<T, u8>) -> Result<T, ReportFault>
        ensures { result ≡ at_line self.now read }
    {
        match read {
            Ok(x) => Ok(x),
            Err(reason) => Err(self.fault(reason)),
        }
    }

    /// No line is left, or the fault is 9 at the next line.
    pub fn finished(&self) -> Result<(), ReportFault>
        ensures { result ≡ ended self.now }
    {
        if self.rest.is_empty() {
            Ok(())
        } else {
            Err(ReportFault {
                line: self.line + 1,
                reason: 9,
            })
        }
    }
}
