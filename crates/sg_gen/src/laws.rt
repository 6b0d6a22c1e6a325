//! Laws about generated games, each as the contract of a function that does nothing.

ghost use Rattle.sg_gen.specs.GeneratedLaws.{MadeGamesAreAccepted, TextsAreApart};

use sg_game_text_laws::game_text_is_file;

/// Each generated game keeps every promise of a game file, and its canonical text is a file of that game.
pub fn made_games_are_accepted()
    ensures { MadeGamesAreAccepted }
{
    game_text_is_file();
}

/// A text spells at most one shape.
pub fn texts_are_apart()
    ensures { TextsAreApart }
{}
