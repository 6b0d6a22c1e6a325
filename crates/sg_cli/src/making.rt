//! What `make` does: makes the game of a shape and a seed, and writes its canonical text.

ghost use Rattle.std.specs.Prelude.{◌≡◌, ◌≢◌, ◌≤◌, IfOk, IfErr, Ok};
ghost use Rattle.sg_format.specs.GameFiles.{game_of_bytes};
ghost use Rattle.sg_format.specs.GameText.{game_text};
ghost use Rattle.sg_gen.specs.Generated.{made_game};
ghost use Rattle.sg_gen.specs.Shapes.{IsShape};
ghost use Rattle.sg_cli.specs.MakingSteps.{MakingFails, WritesMade};

use crate::refusal::{CommandRefusal, Refusal};
use sg_game_text::write_game;
use sg_gen::{Shape, make_game};
use sg_shelf::Sink;
use std::alloc::{AllocError, Global};

/// The text of the game of a shape and a seed.
fn made_text(alloc: Global, shape: Shape, seed: u64) -> Result<Vec<u8>, AllocError>
    requires { IsShape shape }
    ensures canonical { IfOk result (λ text. text.items ≡ game_text (made_game shape seed)) }
    ensures file { IfOk result (λ text. game_of_bytes text.items ≡ Ok (made_game shape seed)) }
{
    let game = make_game(alloc, shape, seed)?;
    write_game(alloc, &game)
}

/// Makes the game of the shape that the text spells and a seed, and writes its text.
pub(crate) fn make_shaped<O: Sink>(
    alloc: Global,
    text: &str,
    seed: u64,
    out: &mut O,
) -> Result<u8, Refusal>
    ensures out_faults { (O.state out.old).faults ≤ (O.state out.new).faults }
    ensures kept { IfErr result (λ e. e ≢ Refusal.NotWritten → out.new ≡ out.old) }
    ensures ok { IfOk result (WritesMade text.now seed (O.state out.old) (O.state out.new)) }
    ensures err { IfErr result (MakingFails text.now seed (O.state out.old) (O.state out.new)) }
{
    let shape = match Shape::read(text) {
        Some(shape) => shape,
        None => return Err(Refusal::Own(CommandRefusal::NoShape)),
    };
    let made = match made_text(alloc, shape, seed) {
        Ok(made) => made,
        Err(_) => return Err(Refusal::Memory),
    };
    match out.put(&made) {
        Ok(()) => Ok(0),
        Err(_) => Err(Refusal::NotWritten),
    }
}
