use sg_options::{Budget, Order};

/// What the words of a call ask for. The texts are the words themselves, and any text is one, also an empty one.
#[derive(Clone, Copy, Debug, PartialEq, Eq)]
pub enum Command<'a> {
    /// `solve GAME [--nodes N] [--pivots N] [--looks N] [--family F] [--order O] [--lanes K] [--seed S]`: find a best commitment for a game.
    Solve {
        /// The name of the game's file.
        game: &'a str,
        /// How much work the search may do.
        budget: Budget,
        /// In which order, in how many lanes, and by which programs.
        order: Order,
    },
    /// `check GAME REPORT`: judge a report on a game.
    Check {
        /// The name of the game's file.
        game: &'a str,
        /// The name of the report's file.
        report: &'a str,
    },
    /// `show GAME REPORT`: show a report on a game as a table for people.
    Show {
        /// The name of the game's file.
        game: &'a str,
        /// The name of the report's file.
        report: &'a str,
    },
    /// `roster GAME REPORT [--seed S]`: write a day's patrols for each ticket of a report on a game.
    Roster {
        /// The name of the game's file.
        game: &'a str,
        /// The name of the report's file.
        report: &'a str,
        /// The seed of the order of the days, 0 where none is given.
        seed: u64,
    },
    /// `make SHAPE SEED`: write a generated game.
    Make {
        /// What the game is like, as a text.
        shape: &'a str,
        /// The seed of its payoffs.
        seed: u64,
    },
}
