//! Writes the line of a refusal to the other output.

ghost use Rattle.std.specs.Prelude.{◌≡◌, ◌≤◌, ◌⊎◌, IfOk, string_bytes};
ghost use Rattle.sg_shelf.specs.Faults.{raised};
ghost use Rattle.sg_cli.specs.Refusals.{HasNumbers, line_of};
ghost use Rattle.sg_cli.specs.Runs.{TellsRefusal};

use crate::refusal::{CommandRefusal, Refusal, fault_line, long_line, wrong_line};
use sg_shelf::Sink;
use std::alloc::{AllocError, Global};

/// Writes the line of a refusal without numbers.
fn write_plain<E: Sink>(refusal: Refusal, err: &mut E) -> Refusal
    requires { ¬ (HasNumbers refusal) }
    ensures count { (E.state err.old).faults ≤ (E.state err.new).faults }
    ensures one_piece { (E.state err.new).puts ≡ raised (E.state err.old).puts }
    ensures same { result ≡ refusal }
    ensures tells { TellsRefusal (E.state err.old) (E.state err.new) refusal }
{
    let _ = err.put(refusal.plain_line().as_bytes());
    refusal
}

/// Writes this line of a refusal, where there was memory for it.
fn write_line<E: Sink>(refusal: Refusal, line: Result<String, AllocError>, err: &mut E) -> Refusal
    requires line { IfOk line (λ text. string_bytes text ≡ line_of refusal) }
    ensures count { (E.state err.old).faults ≤ (E.state err.new).faults }
    ensures one_piece { (E.state err.new).puts ≡ raised (E.state err.old).puts }
    ensures same { (result ≡ refusal) ⊎ (result ≡ Refusal.Memory) }
    ensures tells { TellsRefusal (E.state err.old) (E.state err.new) result }
{
    match line {
        Ok(line) => {
            let _ = err.put(line.as_bytes());
            refusal
        }
        Err(_) => write_plain(Refusal::Memory, err),
    }
}

/// Writes the line of a refusal. Where there is no memory for the line, that is told instead.
pub(crate) fn write_refusal<E: Sink>(alloc: Global, refusal: Refusal, err: &mut E) -> Refusal
    ensures count { (E.state err.old).faults ≤ (E.state err.new).faults }
    ensures one_piece { (E.state err.new).puts ≡ raised (E.state err.old).puts }
    ensures same { (result ≡ refusal) ⊎ ((result ≡ Refusal.Memory) × HasNumbers refusal) }
    ensures tells { TellsRefusal (E.state err.old) (E.state err.new) result }
{
    match refusal {
        Refusal::Refused(fault) => write_line(refusal, fault_line(alloc, fault), err),
        Refusal::Own(CommandRefusal::ReportWrong { line, reason }) => {
            write_line(refusal, wrong_line(alloc, line, reason), err)
        }
        Refusal::Own(CommandRefusal::RosterTooLong { total }) => {
            write_line(refusal, long_line(alloc, total), err)
        }
        _ => write_plain(refusal, err),
    }
}
