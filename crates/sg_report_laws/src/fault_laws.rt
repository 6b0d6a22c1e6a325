//! Laws about the faults that reading tells, each as the contract of a function that does nothing.

ghost use Rattle.sg_report_laws.specs.Faults.{
  EarlyEnd,
  FaultOfItsLine,
  FaultStays,
  LinesBefore,
  NothingBehind,
  OtherFirstLine,
};

/// A fault is told of the bytes however they go on, unless a line was missing.
pub fn fault_stays()
    ensures { FaultStays }
{}

/// A missing line is told at the line behind the last newline.
pub fn early_end()
    ensures { EarlyEnd }
{}

/// A fault is told as soon as its line is ended.
pub fn fault_of_its_line()
    ensures { FaultOfItsLine }
{}

/// As long as the line of a fault isn't ended, just a line is missing; but bytes behind a report are refused before
/// their line is ended.
pub fn lines_before()
    ensures { LinesBefore }
{}

/// Bytes behind a report are refused, at the line behind it.
pub fn nothing_behind()
    ensures { NothingBehind }
{}

/// A first line that isn't just so is told, whatever follows.
pub fn other_first_line()
    ensures { OtherFirstLine }
{}
