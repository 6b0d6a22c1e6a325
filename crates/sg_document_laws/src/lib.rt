//! The parts of a game, its document and the game itself: one order of faults, and one notion of acceptance.
//!
//! `sg_game` says which rule the parts of a game break first, and `sg_format` which rule a game file breaks first. The laws
//! of this crate join the two. `Documents` of `specs/` spells parts, and games, as the tables that TOML reads of a file.
//! `Orders` says that parts and their document have the same first fault, and `Acceptance` that the games of accepted
//! documents, and of accepted files, are exactly those that keep every promise of a game file.
//!
//! The functions have empty bodies: the contract of each is a statement of a module of `specs/`.
#![tactic(auto)]

ghost use Rattle.sg_document_laws.specs.Acceptance.{AcceptedFiles, AcceptedGames, DocumentOfGame};
ghost use Rattle.sg_document_laws.specs.Keys.{AscendingKeys};
ghost use Rattle.sg_document_laws.specs.Orders.{DocumentOfParts};
ghost use Rattle.sg_document_laws.specs.WorkedDocuments.{WorkedDocuments};

/// The document that spells the parts of a game is refused for the first rule that they break, and else is that of their
/// game.
pub fn document_of_parts()
    ensures { DocumentOfParts }
{}

/// A game that keeps every promise is the game of the document that spells it.
pub fn document_of_game()
    ensures { DocumentOfGame }
{}

/// The games of accepted documents are exactly those that keep every promise.
pub fn accepted_games()
    ensures { AcceptedGames }
{}

/// The games of accepted files are exactly those that keep every promise: each of them is the game of some bytes.
pub fn accepted_files()
    ensures { AcceptedFiles }
{}

/// The documents of parts and of games are tables as TOML reads them: the keys of each table ascend.
pub fn keys_ascend()
    ensures { AscendingKeys }
{}

/// The documents of small games, as they are written by hand.
pub fn worked_documents()
    ensures { WorkedDocuments }
{}
