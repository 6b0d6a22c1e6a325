//! The rows of a roster.

ghost use Rattle.std.specs.Prelude.{◌≡◌, ◌≤◌, ◌<◌, ◌+◌, ◌-◌, ◌^◌, ◌∷◌, All, Err, OnOk, OnErr, decimal, drop, length, min, false};
ghost use Rattle.csv.specs.Writing.{default_writer, row_text};
ghost use Rattle.sg_model.specs.Games.{is_matrix, resource_schedules};
ghost use Rattle.sg_model.specs.Plays.{IsLegal};
ghost use Rattle.sg_game.specs.Counts.{IsResourceOf};
ghost use Rattle.sg_model.specs.Commitments.{AreLegal};
ghost use Rattle.sg_shelf.specs.Faults.{HasRisen, raised};
ghost use Rattle.sg_shelf.specs.Taken.{Takes, TakesFront};
ghost use Rattle.sg_roster.specs.Rows.{assignments, choice_name, header_names, header_fields, roster_text};
ghost use Rattle.sg_roster.specs.Writing.{AddsFields, IsBetweenRows, WritesRow, block_of};

use crate::line::{RowWriter, add_field, begin_row, end_row, row_writer, take_block};
use itoa::Buffer;
use sg_commit::Commitment;
use sg_game::{Game, Kind};
use sg_shelf::Sink;
use std::alloc::{AllocError, Global};

/// Why the rows were not all put.
#[derive(Clone, Copy, Debug, PartialEq, Eq)]
pub enum RowsFault {
    /// The sink failed.
    Failed,
    /// Memory ran out.
    Memory,
}

/// The name of the schedule that the resource takes by this choice, and nothing where it is idle.
fn choice_name(game: &Game, r: u16, c: u16) -> &str
    requires resource { IsResourceOf game.now r }
    requires choice { c ≤ length (resource_schedules game.now r) }
    ensures { result.now ≡ choice_name game.now r c }
{
    if c == 0 {
        return "";
    }
    let s = game.resource_schedules(r)[c as usize - 1];
    game.schedule_name(s)
}

/// Adds the names of the resources.
fn add_resource_names(writer: &mut RowWriter, game: &Game) -> Result<(), AllocError>
    requires { is_matrix game.now ≡ false }
    ensures { OnOk result (AddsFields writer.old writer.new (header_names game.now)) }
{
    for r in 0..game.resources() {
        add_field(writer, game.resource_name(r + 1).as_bytes())?;
    }
    Ok(())
}

/// Adds what the header has behind `day`.
fn add_columns(writer: &mut RowWriter, game: &Game) -> Result<(), AllocError>
    ensures { OnOk result (AddsFields writer.old writer.new (header_names game.now)) }
{
    match game.kind() {
        Kind::Security => add_resource_names(writer, game),
        Kind::Matrix => add_field(writer, b"row"),
    }
}

/// Adds what each resource takes.
fn add_choices(writer: &mut RowWriter, game: &Game, code: &[u16]) -> Result<(), AllocError>
    requires security { is_matrix game.now ≡ false }
    requires legal { IsLegal game.now code.now }
    ensures { OnOk result (AddsFields writer.old writer.new (assignments game.now code.now)) }
{
    for r in 0..game.resources() {
        let name = choice_name(game, r + 1, code[r as usize]);
        add_field(writer, name.as_bytes())?;
    }
    Ok(())
}

/// Adds what a play says.
fn add_assignments(writer: &mut RowWriter, game: &Game, code: &[u16]) -> Result<(), AllocError>
    requires { IsLegal game.now code.now }
    ensures { OnOk result (AddsFields writer.old writer.new (assignments game.now code.now)) }
{
    match game.kind() {
        Kind::Security => add_choices(writer, game, code),
        Kind::Matrix => add_field(writer, game.row_name(code[0]).as_bytes()),
    }
}

/// Writes the header.
fn write_header(writer: &mut RowWriter, game: &Game) -> Result<(), AllocError>
    requires { IsBetweenRows writer.old }
    ensures { OnOk result (WritesRow writer.old writer.new (header_fields game.now)) }
{
    begin_row(writer, b"day")?;
    add_columns(writer, game)?;
    end_row(writer)?;
    Ok(())
}

/// Writes the row of the day of this number, on which this is played.
fn write_day(
    writer: &mut RowWriter,
    game: &Game,
    code: &[u16],
    day: usize,
) -> Result<(), AllocError>
    requires between { IsBetweenRows writer.old }
    requires legal { IsLegal game.now code.now }
    ensures { OnOk result (WritesRow writer.old writer.new (decimal day ∷ assignments game.now code.now)) }
{
    let mut number = Buffer::new();
    begin_row(writer, number.format(day).as_bytes())?;
    add_assignments(writer, game, code)?;
    end_row(writer)?;
    Ok(())
}

/// Puts the bytes of the block from this place on.
fn put_row<O: Sink>(writer: &RowWriter, start: usize, out: &mut O) -> Result<(), RowsFault>
    requires { start ≤ length (block_of writer.now) }
    ensures whole { OnOk result (Takes (O.state out.old).bytes (O.state out.new).bytes (drop start (block_of writer.now))) }
    ensures front { OnErr result (TakesFront (O.state out.old).bytes (O.state out.new).bytes (drop start (block_of writer.now))) }
    ensures pieces { (O.state out.new).puts ≡ raised (O.state out.old).puts }
    ensures count { (O.state out.old).faults ≤ (O.state out.new).faults }
    ensures failed { OnErr result (HasRisen (O.state out.old).faults (O.state out.new).faults) }
{
    match out.put(&writer.get_ref()[start..]) {
        Ok(()) => Ok(()),
        Err(_) => Err(RowsFault::Failed),
    }
}

/// Puts the header.
fn put_header<O: Sink>(writer: &mut RowWriter, game: &Game, out: &mut O) -> Result<(), RowsFault>
    requires { IsBetweenRows writer.old }
    ensures between { OnOk result (IsBetweenRows writer.new) }
    ensures whole { OnOk result (Takes (O.state out.old).bytes (O.state out.new).bytes (row_text default_writer (header_fields game.now))) }
    ensures front { OnErr result (TakesFront (O.state out.old).bytes (O.state out.new).bytes (row_text default_writer (header_fields game.now))) }
    ensures pieces { OnOk result ((O.state out.new).puts ≡ raised (O.state out.old).puts) }
    ensures count { (O.state out.old).faults ≤ (O.state out.new).faults }
    ensures failed { result ≡ Err RowsFault.Failed → HasRisen (O.state out.old).faults (O.state out.new).faults }
{
    let start = writer.get_ref().as_slice().len();
    match write_header(writer, game) {
        Ok(()) => put_row(writer, start, out),
        Err(_) => Err(RowsFault::Memory),
    }
}

/// Puts the row of the day of this number, on which this is played.
fn put_day<O: Sink>(
    writer: &mut RowWriter,
    game: &Game,
    code: &[u16],
    day: usize,
    out: &mut O,
) -> Result<(), RowsFault>
    requires between { IsBetweenRows writer.old }
    requires legal { IsLegal game.now code.now }
    ensures between { OnOk result (IsBetweenRows writer.new) }
    ensures whole { OnOk result (Takes (O.state out.old).bytes (O.state out.new).bytes (row_text default_writer (decimal day ∷ assignments game.now code.now))) }
    ensures front { OnErr result (TakesFront (O.state out.old).bytes (O.state out.new).bytes (row_text default_writer (decimal day ∷ assignments game.now code.now))) }
    ensures pieces { OnOk result ((O.state out.new).puts ≡ raised (O.state out.old).puts) }
    ensures count { (O.state out.old).faults ≤ (O.state out.new).faults }
    ensures failed { result ≡ Err RowsFault.Failed → HasRisen (O.state out.old).faults (O.state out.new).faults }
{
    let start = writer.get_ref().as_slice().len();
    match write_day(writer, game, code, day) {
        Ok(()) => put_row(writer, start, out),
        Err(_) => Err(RowsFault::Memory),
    }
}

/// Puts a header and then one row for each day, which has the ticket at that place of the commitment, counted from 0.
/// Each row is one piece.
///
/// # Errors
///
/// `Failed` only where the sink counted a fault; else only memory may be wanting. After either a front of the text was
/// taken.
pub fn put_rows<O: Sink>(
    alloc: Global,
    game: &Game,
    k: &Commitment,
    order: &[u32],
    out: &mut O,
) -> Result<(), RowsFault>
    requires legal { AreLegal game.now k.now.tickets }
    requires known { All (λ i. i < length k.now.tickets) order.now }
    ensures whole { OnOk result (Takes (O.state out.old).bytes (O.state out.new).bytes (roster_text game.now k.now.tickets order.now)) }
    ensures front { OnErr result (TakesFront (O.state out.old).bytes (O.state out.new).bytes (roster_text game.now k.now.tickets order.now)) }
    ensures pieces { OnOk result ((O.state out.new).puts ≡ min ((O.state out.old).puts + (1 + length order.now)) (2 ^ 64 - 1)) }
    ensures count { (O.state out.old).faults ≤ (O.state out.new).faults }
    ensures failed { result ≡ Err RowsFault.Failed → HasRisen (O.state out.old).faults (O.state out.new).faults }
{
    let tickets = k.tickets();
    let mut writer = row_writer(alloc);
    match put_header(&mut writer, game, out) {
        Ok(()) => {}
        Err(fault) => return Err(fault),
    }
    for i in 0..order.len() {
        take_block(&mut writer, alloc);
        let ticket = &tickets[order[i] as usize];
        match put_day(&mut writer, game, ticket.play.code.as_slice(), i + 1, out) {
            Ok(()) => {}
            Err(fault) => return Err(fault),
        }
    }
    Ok(())
}
