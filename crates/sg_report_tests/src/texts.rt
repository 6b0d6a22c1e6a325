//! Texts of reports: the first fault of each, and that a report is written as it was read.

use sg_cert_reader::{ReportError, read_report};
use sg_cert_writer::write_report;
use sg_shelf::MemSink;
use std::alloc::{AllocError, Global};
use std::test::*;

/// A text, and the line and reason of its first fault.
struct Case(&'static [u8], u64, u8);

const HEAD: &'static [u8] = b"patrol-report 1\ntickets 1 1\nt 1 1\nvalue 3 1\n";

/// Whole texts, with the first fault that the rules give, or 0 at line 0.
const TEXTS: &'static [Case] = &[
    Case(b"", 1, 2),
    Case(b"patrol-report 1", 1, 2),
    Case(b"patrol-report 2\n", 1, 1),
    Case(b"patrol-report 1 \n", 1, 1),
    Case(b"\n", 1, 1),
    Case(b"patrol-report 2", 1, 2),
    Case(b"patrol-report 1\n", 2, 2),
    Case(b"patrol-report 1\n\n", 2, 3),
    Case(b"patrol-report 1\nticket 1 1\n", 2, 3),
    Case(b"patrol-report 1\ntickets 1\n", 2, 4),
    Case(b"patrol-report 1\ntickets 1 1 1\n", 2, 4),
    Case(b"patrol-report 1\ntickets 1 x\n", 2, 5),
    Case(b"patrol-report 1\ntickets 02 3\n", 2, 5),
    Case(b"patrol-report 1\ntickets 0 1\n", 2, 6),
    Case(b"patrol-report 1\ntickets 0 x\n", 2, 5),
    Case(b"patrol-report 1\ntickets 1 -5\n", 3, 2),
    Case(
        b"patrol-report 1\ntickets 170141183460469231731687303715884105728 1\n",
        2,
        6,
    ),
    Case(
        b"patrol-report 1\ntickets 1 170141183460469231731687303715884105728\n",
        2,
        6,
    ),
    Case(
        b"patrol-report 1\ntickets 1 -170141183460469231731687303715884105728\n",
        3,
        2,
    ),
    Case(
        b"patrol-report 1\ntickets 1 -170141183460469231731687303715884105729\n",
        2,
        6,
    ),
    Case(b"patrol-report 1\ntickets 1 1\nt 0 1\n", 3, 6),
    Case(b"patrol-report 1\ntickets 1 1\nt -1 1\n", 3, 6),
    Case(b"patrol-report 1\ntickets 1 1\nt 1 65536\n", 3, 6),
    Case(b"patrol-report 1\ntickets 1 1\nt 1 65535\n", 4, 2),
    Case(b"patrol-report 1\ntickets 1 1\nt\n", 3, 4),
    Case(b"patrol-report 1\ntickets 1 1\nt 1\n", 4, 2),
    Case(b"patrol-report 1\ntickets 1 1\nt 1 x\n", 3, 5),
    Case(b"patrol-report 1\ntickets 1 1\nt 1 -1\n", 3, 6),
    Case(b"patrol-report 1\ntickets 1 1\nx 1 1\n", 3, 3),
    Case(b"patrol-report 1\ntickets 2 3\nt 2 1\nt 1 1\n", 4, 7),
    Case(b"patrol-report 1\ntickets 2 3\nt 2 2\nt 1 1\n", 4, 7),
    Case(b"patrol-report 1\ntickets 2 3\nt 2 1\nt 1 1 1\n", 4, 7),
    Case(b"patrol-report 1\ntickets 2 3\nt 2 1 2\nt 1 2\n", 4, 7),
    Case(b"patrol-report 1\ntickets 2 3\nt 2 1\nt 0 1\n", 4, 6),
    Case(b"patrol-report 1\ntickets 2 3\nt 2\nt 1\n", 4, 7),
    Case(b"patrol-report 1\ntickets 2 3\nt 2 1 9\nt 1 2 0\n", 5, 2),
    Case(b"patrol-report 1\ntickets 2 3\nt 2 1\nvalue 1 1\n", 4, 3),
    Case(b"patrol-report 1\ntickets 2 3\nt 0 1\nt 1\n", 3, 6),
    Case(b"patrol-report 1\ntickets 1 1\nt 1 1\nvalue 1\n", 4, 4),
    Case(b"patrol-report 1\ntickets 1 1\nt 1 1\nvalue 2 4\n", 4, 6),
    Case(b"patrol-report 1\ntickets 1 1\nt 1 1\nvalue 1 0\n", 4, 6),
    Case(b"patrol-report 1\ntickets 1 1\nt 1 1\nvalue 0 1\n", 5, 2),
    Case(b"patrol-report 1\ntickets 1 1\nt 1 1\nvalue 0 2\n", 4, 6),
    Case(b"patrol-report 1\ntickets 1 1\nt 1 1\nvalue -1 2\n", 5, 2),
    Case(b"patrol-report 1\ntickets 1 1\nt 1 1\nvalue 1 -1\n", 4, 6),
    Case(b"patrol-report 1\ntickets 1 1\nt 1 1\nvalues 1 1\n", 4, 3),
];

/// Texts behind the four lines of the head.
const TAILS: &'static [Case] = &[
    Case(b"", 5, 2),
    Case(b"open", 5, 2),
    Case(b"open\n", 6, 2),
    Case(b"\n", 5, 3),
    Case(b" open\n", 5, 3),
    Case(b"open \n", 5, 4),
    Case(b"open\r\n", 5, 3),
    Case(b"open\t\n", 5, 3),
    Case(b"Open\n", 5, 3),
    Case(b"plays 1 2\n", 5, 4),
    Case(b"plays 1 2 0 0\n", 5, 4),
    Case(b"plays  1 2\n", 5, 5),
    Case(b"plays +1 2 0\n", 5, 5),
    Case(b"plays -0 2 0\n", 5, 5),
    Case(b"plays 00 2 0\n", 5, 5),
    Case(b"plays 1. 2 0\n", 5, 5),
    Case(b"plays - 2 0\n", 5, 5),
    Case(b"plays 0 2 0\n", 5, 6),
    Case(b"plays 1 -1 0\n", 5, 6),
    Case(b"plays 1 0 -1\n", 5, 6),
    Case(b"plays 170141183460469231731687303715884105727 0 0\n", 6, 2),
    Case(b"plays 170141183460469231731687303715884105728 0 0\n", 5, 6),
    Case(b"plays 1 2 1\n", 6, 2),
    Case(b"plays 1 2 1\nc 1 1\n", 6, 3),
    Case(b"plays 1 2 1\nm 1 1\n", 6, 4),
    Case(b"plays 1 2 1\nm x 1 1\n", 6, 5),
    Case(b"plays 1 2 1\nm 9 1 1\n", 6, 6),
    Case(b"plays 1 2 1\nm 0 1 1\n", 6, 6),
    Case(b"plays 1 2 1\nm 1 65536 1\n", 6, 6),
    Case(b"plays 1 2 1\nm 8 65535 1\n", 7, 2),
    Case(b"plays 1 2 1\nm 1 1 0\n", 6, 6),
    Case(b"plays 1 2 2\nm 1 2 1\nm 1 2 1\n", 7, 7),
    Case(b"plays 1 2 2\nm 2 1 1\nm 1 2 1\n", 7, 7),
    Case(b"plays 1 2 2\nm 1 2 1\nm 2 1 1\n", 8, 2),
    Case(b"plays 1 2 1\nm 9 x 1\n", 6, 5),
    Case(b"plays 1 2 1\nx 9 x\n", 6, 3),
    Case(b"plays 1 2 1\nm 9 x\n", 6, 4),
    Case(b"plays 1 2 2\nm 1 2 1\nm 1 2 0\n", 7, 6),
    Case(b"plays 1 2 2\nm 0 1 1\nm 1 1\n", 6, 6),
    Case(b"cover 1 2 2\nc 5 1\nc 5 1\n", 7, 7),
    Case(b"cover 1 2 2\nc 5 1\nc 4 1\n", 7, 7),
    Case(b"cover 1 2 2\nc 5 1\nc 6 1\n", 8, 2),
    Case(b"cover 1 2 1\nc 1536 1\n", 6, 6),
    Case(b"cover 1 2 1\nc 1535 1\n", 7, 2),
    Case(b"cover 1 2 1\nc 0 1\n", 6, 6),
    Case(b"cover 1 2 1\nm 1 1 1\n", 6, 3),
    Case(b"cover 1 2 1\nc 1\n", 6, 4),
    Case(b"cover 1 2\n", 5, 4),
    Case(b"water 2 4 resources\n", 5, 6),
    Case(b"water 4 0 resources\n", 5, 6),
    Case(b"water 1 -1 resources\n", 5, 6),
    Case(b"water 0 1 resources\n", 6, 2),
    Case(b"water -1 2 resources\n", 6, 2),
    Case(b"water 0 2 resources\n", 5, 6),
    Case(b"water 1 2 foo\n", 5, 3),
    Case(b"water 1 2\n", 5, 4),
    Case(b"water 1 2 target\n", 5, 4),
    Case(b"water 1 2 target 0\n", 5, 6),
    Case(b"water 1 2 target 65535\n", 6, 2),
    Case(b"water 1 2 target 65536\n", 5, 6),
    Case(b"water 1 2 resources 1\n", 5, 4),
    Case(b"water x 2 foo\n", 5, 3),
    Case(b"water x 2 target\n", 5, 4),
    Case(b"water x 2 target 1\n", 5, 5),
    Case(b"split 1 2\nsplit 1 2\n", 6, 3),
    Case(b"split 1 0\n", 5, 6),
    Case(b"split 9 1\n", 5, 6),
    Case(b"split 1 65536\n", 5, 6),
    Case(b"split 1\n", 5, 4),
    Case(b"split 1 1\nopen\n", 7, 2),
    Case(b"split 1 1\nopen\nopen\n", 8, 2),
    Case(b"split 1 1\ncap 2 plain 4\n", 6, 3),
    Case(b"fact 1 2 0\n", 5, 3),
    Case(b"cap 2 plain 4\n", 6, 2),
    Case(b"cap\n", 5, 4),
    Case(b"cap 2\n", 5, 4),
    Case(b"cap 2 foo x x x x\n", 5, 3),
    Case(b"cap 2 plain\n", 5, 4),
    Case(b"cap 2 plain 4 4\n", 5, 4),
    Case(b"cap 0 plain 4\n", 5, 6),
    Case(b"cap 9 plain 4\n", 5, 6),
    Case(b"cap 2 plain 9223372036854775807\n", 6, 2),
    Case(b"cap 2 plain 9223372036854775808\n", 5, 6),
    Case(b"cap 2 plain -9223372036854775808\n", 6, 2),
    Case(b"cap 2 plain -9223372036854775809\n", 5, 6),
    Case(b"cap 2 proved 4\n", 5, 4),
    Case(b"cap 2 proved 4 0\n", 5, 6),
    Case(b"cap 2 proved 4 1\nopen\n", 6, 3),
    Case(b"cap 2 proved 4 1\nplays 1 2 0\ncap 2 plain x\n", 7, 5),
    Case(b"open\ncap 2 plain 4\n", 6, 3),
    Case(b"open\nupper 4\n", 6, 4),
    Case(b"open\nuppe 4 1\n", 6, 3),
    Case(b"open\nupper 2 4\n", 6, 6),
    Case(b"open\nupper 4 1\nverdict\n", 7, 4),
    Case(b"open\nupper 4 1\nverdict x\n", 7, 3),
    Case(b"open\nupper 4 1\nx optimal\n", 7, 3),
    Case(b"open\nupper 4 1\nverdict optimal 1\n", 7, 4),
    Case(b"open\nupper 4 1\nverdict gap\n", 7, 4),
    Case(b"open\nupper 4 1\nverdict gap foo\n", 7, 3),
    Case(b"open\nupper 4 1\nverdict foo nodes 1\n", 7, 3),
    Case(b"open\nupper 4 1\nverdict gap nodes\n", 7, 4),
    Case(b"open\nupper 4 1\nverdict gap nodes x\n", 7, 5),
    Case(b"open\nupper 4 1\nverdict gap nodes 0\n", 7, 6),
    Case(
        b"open\nupper 4 1\nverdict gap nodes 18446744073709551615\n",
        8,
        2,
    ),
    Case(
        b"open\nupper 4 1\nverdict gap nodes 18446744073709551616\n",
        7,
        6,
    ),
    Case(b"open\nupper 4 1\nverdict gap nodes 1 1\n", 7, 4),
    Case(b"open\nupper 4 1\nverdict gap pivots 1 1 1 2\n", 8, 2),
    Case(b"open\nupper 4 1\nverdict gap pivots 1 1 1\n", 7, 4),
    Case(b"open\nupper 4 1\nverdict gap pivots 1 1 2 2\n", 7, 4),
    Case(
        b"open\nupper 4 1\nverdict gap pivots 1 1 9 1 1 1 1 1 1 1 1 1\n",
        7,
        6,
    ),
    Case(b"open\nupper 4 1\nverdict gap pivots 1 1 9 1\n", 7, 4),
    Case(b"open\nupper 4 1\nverdict gap pivots 1 1 -1\n", 7, 6),
    Case(b"open\nupper 4 1\nverdict gap pivots 1 1 x\n", 7, 5),
    Case(b"open\nupper 4 1\nverdict gap pivots x 1 -1\n", 7, 5),
    Case(b"open\nupper 4 1\nverdict gap pivots 1 1\n", 7, 4),
    Case(b"open\nupper 4 1\nverdict gap pivots 1 1 0\n", 7, 6),
    Case(b"open\nupper 4 1\nverdict gap pivots 1 1 00\n", 7, 5),
    Case(b"open\nupper 4 1\nverdict gap pivots 1 1 1 65535\n", 8, 2),
    Case(b"open\nupper 4 1\nverdict gap pivots 1 1 1 65536\n", 7, 6),
    Case(b"open\nupper 4 1\nverdict gap pivots 1 1 1 0\n", 7, 6),
    Case(b"open\nupper 4 1\nverdict gap pivots 1 9 1 1\n", 7, 6),
    Case(
        b"open\nupper 4 1\nverdict gap pivots 1 1 170141183460469231731687303715884105728 1\n",
        7,
        4,
    ),
    Case(
        b"open\nupper 4 1\nverdict gap pivots 1 1 8 1 1 1 1 1 1 1 1\n",
        8,
        2,
    ),
    Case(b"open\nupper 4 1\nverdict gap looks 1 0 1 1 2\n", 8, 2),
    Case(
        b"open\nupper 4 1\nverdict gap looks 1 18446744073709551616 1 1 2\n",
        7,
        6,
    ),
    Case(b"open\nupper 4 1\nverdict gap looks 0 1 1 1 2\n", 7, 6),
    Case(b"open\nupper 4 1\nverdict gap looks 1 0 1 1\n", 7, 4),
    Case(b"open\nupper 4 1\nverdict gap looks 1 -1 1 1 2\n", 7, 6),
    Case(
        b"open\nupper 4 1\nverdict gap wide 1 sum 1 2 0 1 1 2\n",
        8,
        2,
    ),
    Case(
        b"open\nupper 4 1\nverdict gap wide 7 less 1 2 0 2 1 2\n",
        8,
        2,
    ),
    Case(b"open\nupper 4 1\nverdict gap wide 1 foo\n", 7, 3),
    Case(b"open\nupper 4 1\nverdict gap wide 1\n", 7, 4),
    Case(b"open\nupper 4 1\nverdict gap wide\n", 7, 4),
    Case(
        b"open\nupper 4 1\nverdict gap wide 8 sum 1 2 0 1 1 2\n",
        7,
        6,
    ),
    Case(
        b"open\nupper 4 1\nverdict gap wide 0 sum 1 2 0 1 1 2\n",
        7,
        6,
    ),
    Case(
        b"open\nupper 4 1\nverdict gap wide x less 1 2 0 1 1 2\n",
        7,
        5,
    ),
    Case(
        b"open\nupper 4 1\nverdict gap wide x foo 1 2 0 1 1 2\n",
        7,
        3,
    ),
    Case(
        b"open\nupper 4 1\nverdict gap wide 1 times 170141183460469231731687303715884105727 -170141183460469231731687303715884105728 0 1 1 2\n",
        8,
        2,
    ),
    Case(
        b"open\nupper 4 1\nverdict gap wide 1 sum 1 2 0 1 2 2\n",
        7,
        4,
    ),
    Case(b"open\nupper 4 1\nverdict optimal\nen\n", 8, 3),
    Case(b"open\nupper 4 1\nverdict optimal\nend x\n", 8, 4),
    Case(b"open\nupper 4 1\nverdict optimal\nend", 8, 2),
    Case(b"open\nupper 4 1\nverdict optimal\nend\n", 0, 0),
    Case(b"open\nupper 4 1\nverdict optimal\nend\n\n", 9, 9),
    Case(b"open\nupper 4 1\nverdict optimal\nend\nx", 9, 9),
    Case(b"open\nupper 4 1\nverdict optimal\nend\nend\n", 9, 9),
    Case(b"open\nupper 4 1\nverdict optimal\n\n", 8, 3),
];

/// Whole reports.
const REPORTS: &'static [&'static [u8]] = &[
    b"patrol-report 1\ntickets 2 3\nt 2 1\nt 1 2\nvalue 2 3\nwater 4 3 resources\nupper 2 3\nverdict optimal\nend\n",
    b"patrol-report 1\ntickets 2 3\nt 2 1\nt 1 2\nvalue 11 3\ncap 2 proved 4 2\nplays 3 5 1\nm 2 2 1\nplays 1 4 0\nsplit 1 2\nopen\nplays 1 2 0\nsplit 2 2\nplays 3 11 1\nm 1 1 1\nplays 3 16 1\nm 2 2 2\nplays 3 22 1\nm 1 1 2\nupper 11 3\nverdict optimal\nend\n",
    b"patrol-report 1\ntickets 1 1\nt 1 1\nvalue 3 1\ncap 2 plain 4\nsplit 1 2\nopen\nplays 1 2 0\nopen\nupper 4 1\nverdict gap nodes 1\nend\n",
    b"patrol-report 1\ntickets 1 1\nt 1 1\nvalue 2 1\nsplit 1 2\nopen\nplays 1 2 0\nopen\nupper 4 1\nverdict gap pivots 1 1 1 2\nend\n",
    b"patrol-report 1\ntickets 1 -170141183460469231731687303715884105728\nt 1 0 65535\nvalue -3 2\ncap 2 plain -9223372036854775808\nsplit 1 2\nopen\ncover 1 0 2\nc 1 1\nc 1535 2\nwater 1 2 target 7\nupper 4 1\nverdict gap wide 3 less -5 170141183460469231731687303715884105727 0 1 2 2 9\nend\n",
    b"patrol-report 1\ntickets 1 1\nt 1 1\nvalue 2 1\nopen\nupper 4 1\nverdict gap looks 5 7 2 1 3\nend\n",
];

/// The line and the reason of the fault, 0 and 0 for a report, 0 and 99 where memory ran out.
fn fault_of(alloc: Global, bytes: &[u8]) -> (u64, u8) {
    match read_report(alloc, bytes) {
        Ok(_) => (0, 0),
        Err(ReportError::Memory) => (0, 99),
        Err(ReportError::Refused(fault)) => (fault.line, fault.reason),
    }
}

/// The same for a text of two parts, with another between them so many times.
fn fault_of_parts(
    alloc: Global,
    head: &[u8],
    part: &[u8],
    times: usize,
    tail: &[u8],
) -> Result<(u64, u8), AllocError> {
    let mut text = Vec::from_slice(alloc, head)?;
    for _ in 0..times {
        text.extend_from_slice(part)?;
    }
    text.extend_from_slice(tail)?;
    Ok(fault_of(alloc, &text))
}

#[test]
fn tells_the_first_fault(rt: HostRuntime) -> Result<(), AllocError> {
    let tables: [(&[u8], &[Case]); 2] = [(b"", TEXTS), (HEAD, TAILS)];
    for (head, cases) in tables {
        for case in cases {
            assert_eq!(rt;
                fault_of_parts(rt.alloc(), head, b"", 0, case.0)?,
                (case.1, case.2)
            );
        }
    }
    Ok(())
}

#[test]
fn keeps_the_limits(rt: HostRuntime) -> Result<(), AllocError> {
    let ticket = b"patrol-report 1\ntickets 1 1\nt 1".as_slice();
    let cases: [(&[u8], &[u8], usize, &[u8], (u64, u8)); 4] = [
        (ticket, b" 0", 200, b"\n", (4, 2)),
        (ticket, b" 0", 201, b"\n", (3, 4)),
        (HEAD, b"split 1 1\nopen\n", 8, b"", (21, 2)),
        (HEAD, b"split 1 1\nopen\n", 9, b"", (21, 8)),
    ];
    for (head, part, times, tail, fault) in cases {
        assert_eq!(rt; fault_of_parts(rt.alloc(), head, part, times, tail)?, fault);
    }
    Ok(())
}

/// Whether a report that ends before one of its newlines is refused at the line that so has none.
fn wants_each_newline(alloc: Global, report: &[u8]) -> bool {
    let mut line = 1u64;
    for (at, byte) in report.iter().enumerate() {
        if *byte == b'\n' {
            if fault_of(alloc, &report[..at]) != (line, 2) {
                return false;
            }
            line = line.wrapping_add(1);
        }
    }
    true
}

/// Whether a report is read and written again.
fn is_written_again(alloc: Global, report: &[u8]) -> Result<bool, AllocError> {
    let read = match read_report(alloc, report) {
        Ok(read) => read,
        Err(_) => return Ok(false),
    };
    let mut out = MemSink::new(alloc, Vec::new(alloc), 0)?;
    match write_report(&read, &mut out) {
        Ok(()) => Ok(out.bytes() == report),
        Err(_) => Ok(false),
    }
}

#[test]
fn reads_and_writes_whole_reports(rt: HostRuntime) -> Result<(), AllocError> {
    for report in REPORTS {
        let is_whole = is_written_again(rt.alloc(), report)?;
        assert!(rt; is_whole && wants_each_newline(rt.alloc(), report));
    }
    Ok(())
}
