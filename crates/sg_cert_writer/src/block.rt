//! Text that is formed in a block of memory and put when the block is full.

ghost use Rattle.std.specs.Prelude.{◌≡◌, ◌++◌, ◌∷◌, [], ◌<◌, ◌≤◌, ◌-◌, ◌^◌, length, map, IsTrue, OnOk};
ghost use Rattle.std.specs.Fmt.{signed_decimal};
ghost use Rattle.std.specs.Prelude.{decimal};
ghost use Rattle.sg_cert.specs.Text.{spaced};
ghost use Rattle.sg_cert_writer.specs.Writing.{Writes};

use itoa::Buffer;
use sg_shelf::{Sink, SinkError};
use std::marker::Model;

/// How many bytes a block has.
const SIZE: usize = 4_096;

/// Bytes that are not put yet.
#[derive(Drop)]
pub struct Block {
    bytes: [u8; 4096],
    len: usize,
}

impl Model for Block {
    ghost use Rattle.std.specs.Prelude.{List, ℕ, take, ◌≤◌};

    ghost Value = { List ℕ };

    ghost view = { λ b. take b.len b.bytes };

    ghost invariant = { λ b. b.len ≤ 4096 };
}

impl Block {
    /// An empty block.
    pub fn new() -> Block
        ensures { result ≡ [] }
    {
        Block {
            bytes: [0; 4096],
            len: 0,
        }
    }

    /// Whether one more byte fits.
    fn has_room(&self) -> bool
        ensures { IsTrue result → length self.now < 4096 }
    {
        self.len < SIZE
    }

    /// Adds a byte.
    fn push(&mut self, byte: u8)
        requires { length self.old < 4096 }
        ensures { self.new ≡ self.old ++ byte ∷ [] }
    {
        self.bytes[self.len] = byte;
        self.len += 1;
    }

    /// The bytes.
    fn as_slice(&self) -> &[u8]
        ensures { result.now ≡ self.now }
    {
        &self.bytes[..self.len]
    }

    /// Leaves no byte.
    fn clear(&mut self)
        ensures { self.new ≡ [] }
    {
        self.len = 0;
    }
}

/// Puts the block.
pub fn flush<O: Sink>(out: &mut O, block: &mut Block) -> Result<(), SinkError>
    ensures text { Writes result (O.state out.old) block.old (O.state out.new) block.new [] }
    ensures empty { OnOk result (block.new ≡ []) }
    ensures last_count { (O.state out.new).faults ≤ 2 ^ 64 - 1 }
{
    match out.put(block.as_slice()) {
        Ok(()) => {
            block.clear();
            Ok(())
        }
        Err(error) => Err(error),
    }
}

/// Adds a byte, and puts the block before it where it is full.
fn put_byte<O: Sink>(out: &mut O, block: &mut Block, byte: u8) -> Result<(), SinkError>
    ensures { Writes result (O.state out.old) block.old (O.state out.new) block.new (byte ∷ []) }
{
    if block.has_room() {
        block.push(byte);
        return Ok(());
    }
    match flush(out, block) {
        Ok(()) => {
            block.push(byte);
            Ok(())
        }
        Err(error) => Err(error),
    }
}

/// Adds bytes.
pub fn put_bytes<O: Sink>(out: &mut O, block: &mut Block, text: &[u8]) -> Result<(), SinkError>
    ensures { Writes result (O.state out.old) block.old (O.state out.new) block.new text.now }
{
    for byte in text {
        match put_byte(out, block, *byte) {
            Ok(()) => {}
            Err(error) => return Err(error),
        }
    }
    Ok(())
}

/// Adds a number behind a space.
fn put_number<O: Sink>(out: &mut O, block: &mut Block, number: &i128) -> Result<(), SinkError>
    ensures { Writes result (O.state out.old) block.old (O.state out.new) block.new (32 ∷ signed_decimal number.now) }
{
    match put_byte(out, block, b' ') {
        Ok(()) => {
            let mut buffer = Buffer::new();
            put_bytes(out, block, buffer.format(*number).as_bytes())
        }
        Err(error) => Err(error),
    }
}

/// Adds a choice or action behind a space.
fn put_choice<O: Sink>(out: &mut O, block: &mut Block, choice: u16) -> Result<(), SinkError>
    ensures { Writes result (O.state out.old) block.old (O.state out.new) block.new (32 ∷ decimal choice) }
{
    match put_byte(out, block, b' ') {
        Ok(()) => {
            let mut buffer = Buffer::new();
            put_bytes(out, block, buffer.format(choice).as_bytes())
        }
        Err(error) => Err(error),
    }
}

/// Adds numbers, each behind a space.
fn put_numbers<O: Sink>(out: &mut O, block: &mut Block, numbers: &[i128]) -> Result<(), SinkError>
    ensures { Writes result (O.state out.old) block.old (O.state out.new) block.new (spaced (map signed_decimal numbers.now)) }
{
    for number in numbers {
        match put_number(out, block, number) {
            Ok(()) => {}
            Err(error) => return Err(error),
        }
    }
    Ok(())
}

/// Adds choices or actions, each behind a space.
pub fn put_choices<O: Sink>(
    out: &mut O,
    block: &mut Block,
    choices: &[u16],
) -> Result<(), SinkError>
    ensures { Writes result (O.state out.old) block.old (O.state out.new) block.new (spaced (map decimal choices.now)) }
{
    for choice in choices {
        match put_choice(out, block, *choice) {
            Ok(()) => {}
            Err(error) => return Err(error),
        }
    }
    Ok(())
}

/// Adds words, and numbers behind them.
pub fn put_part<O: Sink>(
    out: &mut O,
    block: &mut Block,
    words: &[u8],
    numbers: &[i128],
) -> Result<(), SinkError>
    ensures { Writes result (O.state out.old) block.old (O.state out.new) block.new (words.now ++ spaced (map signed_decimal numbers.now)) }
{
    match put_bytes(out, block, words) {
        Ok(()) => put_numbers(out, block, numbers),
        Err(error) => Err(error),
    }
}
