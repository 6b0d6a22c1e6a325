//! What the program does with its words, from the first to the status with which the process ends.

ghost use Rattle.std.specs.Prelude.{◌≡◌, ◌≢◌, ◌≤◌, IfOk, OnErr};
ghost use Rattle.std.specs.Process.{exit_status};
ghost use Rattle.sg_shelf.specs.Faults.{raised};
ghost use Rattle.sg_words.specs.Commands.{command_given};
ghost use Rattle.sg_cli.specs.Effects.{surroundings};
ghost use Rattle.sg_cli.specs.Runs.{Answers, FormsFirst, IsComplete, TellsRefusal, observation};
ghost use Rattle.sg_game.specs.Seen.{texts};

use crate::call::run;
use crate::refusal::Refusal;
use crate::telling::write_refusal;
use sg_shelf::{Shelf, Sink};
use std::alloc::{AllocError, Global};
use std::process::ExitCode;

/// Does what the words ask for, and answers the status with which the process ends.
///
/// `words` are the words after the program's name, unless there was no memory for them: that is told, with status 11,
/// and nothing is read or written.
pub fn run_program<S: Shelf, O: Sink, E: Sink>(
    alloc: Global,
    words: Result<Vec<String>, AllocError>,
    shelf: &mut S,
    out: &mut O,
    err: &mut E,
) -> ExitCode
    // The process ends with the status of the run.
    ensures answer { IfOk words (λ words. Answers (observation (command_given (texts words.items)) S.hands_over
        (surroundings (S.state shelf.old) (O.state out.old)) (surroundings (S.state shelf.new) (O.state out.new))) (E.state err.old) (E.state err.new) (exit_status result)) }
    ensures complete { IfOk words (λ words. IsComplete (observation (command_given (texts words.items)) S.hands_over
        (surroundings (S.state shelf.old) (O.state out.old)) (surroundings (S.state shelf.new) (O.state out.new))) (exit_status result)) }

    // Words that there was no memory for.
    ensures memory { OnErr words (exit_status result ≡ 11) }
    ensures unread { OnErr words (shelf.new ≡ shelf.old) }
    ensures unwritten { OnErr words (out.new ≡ out.old) }
    ensures told { OnErr words (TellsRefusal (E.state err.old) (E.state err.new) Refusal.Memory) }

    // What a run owes of its outputs.
    ensures silent { exit_status result ≡ 0 → err.new ≡ err.old }
    ensures silent_gap { exit_status result ≡ 10 → err.new ≡ err.old }
    ensures kept { IfOk words (λ words. exit_status result ≢ 0 → exit_status result ≢ 10 → exit_status result ≢ 9
        → (exit_status result ≡ 11 → FormsFirst (command_given (texts words.items))) → out.new ≡ out.old) }
    ensures one_piece { exit_status result ≢ 0 → exit_status result ≢ 10 → (E.state err.new).puts ≡ raised (E.state err.old).puts }
{
    let status = match words {
        Ok(words) => run(alloc, &words, shelf, out, err),
        Err(_) => write_refusal(alloc, Refusal::Memory, err).status(),
    };
    ExitCode::from(status)
}
