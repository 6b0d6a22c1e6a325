//! The pieces of a game's text: lines, heads of tables, names and numbers.

ghost use Rattle.std.specs.Prelude.{◌≡◌, ◌++◌, OnOk, codes};
ghost use Rattle.std.specs.Fmt.{signed_decimal};
ghost use Rattle.sg_format.specs.GameText.{head, key_line, quoted};
ghost use Rattle.sg_game_text.specs.Writing.{comma_before};

use itoa::Buffer;
use std::alloc::AllocError;

/// Adds a number.
pub(crate) fn put_number(text: &mut Vec<u8>, number: i64) -> Result<(), AllocError>
    ensures { OnOk result (text.new.items ≡ text.old.items ++ signed_decimal number) }
{
    let mut buffer = Buffer::new();
    text.extend_from_slice(buffer.format(number).as_bytes())?;
    Ok(())
}

/// Adds a name in double quotes.
pub(crate) fn put_quoted(text: &mut Vec<u8>, name: &str) -> Result<(), AllocError>
    ensures { OnOk result (text.new.items ≡ text.old.items ++ quoted name.now) }
{
    text.push(b'"')?;
    text.extend_from_slice(name.as_bytes())?;
    text.push(b'"')?;
    Ok(())
}

/// Adds what stands before the item of that index in an array, counted from 0.
pub(crate) fn put_comma(text: &mut Vec<u8>, index: usize) -> Result<(), AllocError>
    ensures { OnOk result (text.new.items ≡ text.old.items ++ comma_before index) }
{
    if index == 0 {
        return Ok(());
    }
    text.extend_from_slice(b", ")?;
    Ok(())
}

/// Adds a key and what stands between it and its value.
pub(crate) fn put_key(text: &mut Vec<u8>, key: &[u8]) -> Result<(), AllocError>
    ensures { OnOk result (text.new.items ≡ text.old.items ++ (key.now ++ codes " = ")) }
{
    text.extend_from_slice(key)?;
    text.extend_from_slice(b" = ")?;
    Ok(())
}

/// Adds a line that gives the key a name.
pub(crate) fn put_name_line(text: &mut Vec<u8>, key: &[u8], name: &str) -> Result<(), AllocError>
    ensures { OnOk result (text.new.items ≡ text.old.items ++ key_line key.now (quoted name.now)) }
{
    put_key(text, key)?;
    put_quoted(text, name)?;
    text.push(b'\n')?;
    Ok(())
}

/// Adds a line that gives the key a number.
pub(crate) fn put_number_line(text: &mut Vec<u8>, key: &[u8], number: i64) -> Result<(), AllocError>
    ensures { OnOk result (text.new.items ≡ text.old.items ++ key_line key.now (signed_decimal number)) }
{
    put_key(text, key)?;
    put_number(text, number)?;
    text.push(b'\n')?;
    Ok(())
}

/// Adds the head of a table, after an empty line.
pub(crate) fn put_head(text: &mut Vec<u8>, key: &[u8]) -> Result<(), AllocError>
    ensures { OnOk result (text.new.items ≡ text.old.items ++ head key.now) }
{
    text.extend_from_slice(b"\n[[")?;
    text.extend_from_slice(key)?;
    text.extend_from_slice(b"]]\n")?;
    Ok(())
}
