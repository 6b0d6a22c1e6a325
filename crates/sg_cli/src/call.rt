//! The program's one call.

ghost use Rattle.std.specs.Prelude.{◌≡◌, ◌≢◌, ◌≤◌, IfOk, IfErr};
ghost use Rattle.sg_shelf.specs.Faults.{raised};
ghost use Rattle.sg_words.specs.Commands.{command_given};
ghost use Rattle.sg_cli.specs.Effects.{surroundings};
ghost use Rattle.sg_cli.specs.Runs.{Answers, ComesOf, DoesCommand, FormsFirst, IsComplete, observation};
ghost use Rattle.sg_game.specs.Seen.{texts};

use crate::checking::check_named;
use crate::making::make_shaped;
use crate::refusal::Refusal;
use crate::rostering::roster_named;
use crate::showing::show_named;
use crate::solving::solve_named;
use crate::telling::write_refusal;
use sg_shelf::{Shelf, Sink};
use sg_words::{Command, command_of};
use std::alloc::Global;

/// Does what the words ask for, and answers the status of success.
fn run_command<S: Shelf, O: Sink>(
    alloc: Global,
    words: &[String],
    shelf: &mut S,
    out: &mut O,
) -> Result<u8, Refusal>
    ensures files { (S.state shelf.new).files ≡ (S.state shelf.old).files }
    ensures faults { (S.state shelf.old).faults ≤ (S.state shelf.new).faults }
    ensures out_faults { (O.state out.old).faults ≤ (O.state out.new).faults }
    ensures kept { IfErr result (λ e. e ≢ Refusal.NotWritten
        → (e ≡ Refusal.Memory → FormsFirst (command_given (texts words.now))) → out.new ≡ out.old) }
    ensures ok { IfOk result (DoesCommand (observation (command_given (texts words.now)) S.hands_over
        (surroundings (S.state shelf.old) (O.state out.old)) (surroundings (S.state shelf.new) (O.state out.new)))) }
    ensures err { IfErr result (ComesOf (observation (command_given (texts words.now)) S.hands_over
        (surroundings (S.state shelf.old) (O.state out.old)) (surroundings (S.state shelf.new) (O.state out.new)))) }
{
    match command_of(alloc, words) {
        Ok(
            Some(
                Command::Solve {
                    game,
                    budget,
                    order,
                },
            ),
        ) => solve_named(alloc, game, &budget, &order, shelf, out),
        Ok(Some(Command::Check { game, report })) => check_named(alloc, game, report, shelf, out),
        Ok(Some(Command::Show { game, report })) => show_named(alloc, game, report, shelf, out),
        Ok(Some(Command::Roster { game, report, seed })) => {
            roster_named(alloc, game, report, seed, shelf, out)
        }
        Ok(Some(Command::Make { shape, seed })) => make_shaped(alloc, shape, seed, out),
        Ok(None) => Err(Refusal::Words),
        Err(_) => Err(Refusal::Memory),
    }
}

/// Does what the words ask for, over the files of a shelf, and answers the status with which the program ends.
///
/// `words` are the words after the program's name. A report, the line that accepts one, a table, a roster or a generated game goes to
/// `out`, a refusal to `err` as one line.
pub fn run<S: Shelf, O: Sink, E: Sink>(
    alloc: Global,
    words: &Vec<String>,
    shelf: &mut S,
    out: &mut O,
    err: &mut E,
) -> u8
    // The command was done, with the status and the text that are due, and nothing is told; or one refusal decides the
    // status, its cause and the line.
    ensures answer { Answers (observation (command_given (texts words.now.items)) S.hands_over
        (surroundings (S.state shelf.old) (O.state out.old)) (surroundings (S.state shelf.new) (O.state out.new))) (E.state err.old) (E.state err.new) result }

    // Where the files are told and no fault is counted, the status is the one that is due: but for want of memory it never
    // gives up.
    ensures complete { IsComplete (observation (command_given (texts words.now.items)) S.hands_over
        (surroundings (S.state shelf.old) (O.state out.old)) (surroundings (S.state shelf.new) (O.state out.new))) result }

    // With success nothing is told, with a refusal just one piece is put; with any refusal but a failing output, and want of
    // memory for a text that is formed while it is written, the output is not touched.
    ensures silent { result ≡ 0 → err.new ≡ err.old }
    ensures silent_gap { result ≡ 10 → err.new ≡ err.old }
    ensures kept { result ≢ 0 → result ≢ 10 → result ≢ 9
        → (result ≡ 11 → FormsFirst (command_given (texts words.now.items))) → out.new ≡ out.old }
    ensures one_piece { result ≢ 0 → result ≢ 10 → (E.state err.new).puts ≡ raised (E.state err.old).puts }

    // The shelf's files are as they were, and no count falls.
    ensures files { (S.state shelf.new).files ≡ (S.state shelf.old).files }
    ensures faults { (S.state shelf.old).faults ≤ (S.state shelf.new).faults }
    ensures out_faults { (O.state out.old).faults ≤ (O.state out.new).faults }
    ensures err_faults { (E.state err.old).faults ≤ (E.state err.new).faults }
{
    match run_command(alloc, words, shelf, out) {
        Ok(status) => status,
        Err(refusal) => write_refusal(alloc, refusal, err).status(),
    }
}
