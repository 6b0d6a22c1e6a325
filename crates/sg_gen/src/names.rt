//! Names with numbers.

ghost use Rattle.std.specs.Prelude.{◌≡◌, ◌≤◌, IfOk, map, string_bytes};
ghost use Rattle.sg_game.specs.Seen.{named_of, texts};
ghost use Rattle.sg_gen.specs.Generated.{named_lists, numbered, numbered_names};
ghost use Rattle.sg_gen.specs.Making.{member_lists};

use sg_game::ListParts;
use std::alloc::{AllocError, Global};

/// A front and a number.
pub(crate) fn numbered(alloc: Global, front: &str, k: usize) -> Result<String, AllocError>
    ensures { IfOk result (λ name. string_bytes name ≡ numbered front.now k) }
{
    Ok(format!(in alloc; "{front}{k}")?)
}

/// So many names with this front, from 1.
pub(crate) fn numbered_names(
    alloc: Global,
    front: &str,
    n: usize,
) -> Result<Vec<String>, AllocError>
    requires { n ≤ 10000 }
    ensures { IfOk result (λ names. texts names.items ≡ numbered_names front.now n) }
{
    let mut names = Vec::new(alloc);
    for k in 0..n {
        names.push(numbered(alloc, front, k + 1)?)?;
    }
    Ok(names)
}

/// Lists of members with such names.
pub(crate) fn named_lists(
    alloc: Global,
    front: &str,
    lists: Vec<Vec<u32>>,
) -> Result<Vec<ListParts>, AllocError>
    ensures { IfOk result (λ named. map named_of named.items ≡ named_lists front.now 1 (member_lists lists.items)) }
{
    let mut named = Vec::new(alloc);
    for members in lists {
        let name = numbered(alloc, front, named.as_slice().len() + 1)?;
        named.push(ListParts { name, members })?;
    }
    Ok(named)
}
