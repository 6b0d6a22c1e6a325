//! One row at a time: `csv`'s writer over a block of memory.

ghost use Rattle.std.specs.Prelude.{◌≡◌, ◌≢◌, ◌++◌, ◌∷◌, [], ℕ, List, OnOk};
ghost use Rattle.csv.specs.Writing.{default_writer, field_text};
ghost use Rattle.sg_roster.specs.Writing.{AddsFields, IsBetweenRows, IsInRow, block_of};

use csv::{Writer, WriterBuilder};
use itoa::Buffer;
use std::alloc::{AllocError, Global};

/// Writes rows into a block of memory, of which each row is put as soon as it is formed.
pub(crate) type RowWriter = Writer<Vec<u8>>;

/// The bytes of a block that is not filled further.
const BLOCK: usize = 65_536;

/// A writer over an empty block.
pub(crate) fn row_writer(alloc: Global) -> RowWriter
    ensures between { IsBetweenRows result }
    ensures empty { block_of result ≡ [] }
{
    WriterBuilder::new().from_writer(Vec::new(alloc))
}

/// Takes an empty block where this one is full.
pub(crate) fn take_block(writer: &mut RowWriter, alloc: Global)
    requires { IsBetweenRows writer.old }
    ensures { IsBetweenRows writer.new }
{
    if writer.get_ref().len() >= BLOCK {
        *writer = row_writer(alloc);
    }
}

/// Begins a row with a field that shows something. The writer fails only where memory ran out.
pub(crate) fn begin_row(writer: &mut RowWriter, field: &[u8]) -> Result<(), AllocError>
    requires between { IsBetweenRows writer.old }
    requires some { field.now ≢ [] }
    ensures { OnOk result (IsInRow writer.new (block_of writer.old ++ field_text default_writer field.now)) }
{
    match writer.write_field(field) {
        Ok(()) => Ok(()),
        Err(_) => Err(AllocError),
    }
}

/// Adds a field to a row.
pub(crate) fn add_field(writer: &mut RowWriter, field: &[u8]) -> Result<(), AllocError>
    ensures { OnOk result (AddsFields writer.old writer.new (field.now ∷ [])) }
{
    match writer.write_field(field) {
        Ok(()) => Ok(()),
        Err(_) => Err(AllocError),
    }
}

/// Ends a row, and brings it into the block whole.
pub(crate) fn end_row(writer: &mut RowWriter) -> Result<(), AllocError>
    ensures { OnOk result ((text : List ℕ) → IsInRow writer.old text → IsBetweenRows writer.new × (block_of writer.new ≡ text ++ 10 ∷ [])) }
{
    if writer.end_record().is_err() {
        return Err(AllocError);
    }
    match writer.flush() {
        Ok(()) => Ok(()),
        Err(_) => Err(AllocError),
    }
}
