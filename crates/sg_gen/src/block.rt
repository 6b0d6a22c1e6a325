//! The schedules of blocks, and the resources that take them.

ghost use Rattle.std.specs.Prelude.{◌≡◌, ◌≤◌, ◌+◌, ◌*◌, ◌-◌, ◌++◌, ◌∷◌, [], IfOk, OnOk, flat_map, map};
ghost use Rattle.sg_model.specs.Sums.{numbers, numbers_from};
ghost use Rattle.sg_gen.specs.Generated.{block_lists, blocks_lists, shares_of};
ghost use Rattle.sg_gen.specs.Making.{member_lists};

use std::alloc::{AllocError, Global};

/// A list of one member.
fn single(alloc: Global, a: u32) -> Result<Vec<u32>, AllocError>
    ensures { IfOk result (λ list. list.items ≡ a ∷ []) }
{
    let mut list = Vec::with_capacity(alloc, 1)?;
    list.push(a)?;
    Ok(list)
}

/// A list of two members.
fn pair(alloc: Global, a: u32, b: u32) -> Result<Vec<u32>, AllocError>
    ensures { IfOk result (λ list. list.items ≡ a ∷ b ∷ []) }
{
    let mut list = Vec::with_capacity(alloc, 2)?;
    list.push(a)?;
    list.push(b)?;
    Ok(list)
}

/// Adds each of so many targets alone, behind the first ones.
fn add_singles(
    alloc: Global,
    lists: &mut Vec<Vec<u32>>,
    before: u32,
    width: u32,
) -> Result<(), AllocError>
    requires few { before ≤ 1000 }
    requires narrow { width ≤ 1000 }
    ensures { OnOk result (member_lists lists.new.items ≡ member_lists lists.old.items ++ map (λ a. (before + a) ∷ []) (numbers width)) }
{
    for i in 0..width {
        lists.push(single(alloc, before + (i + 1))?)?;
    }
    Ok(())
}

/// Adds target `a` of a block with each later one.
fn add_pairs_with(
    alloc: Global,
    lists: &mut Vec<Vec<u32>>,
    before: u32,
    a: u32,
    width: u32,
) -> Result<(), AllocError>
    requires few { before ≤ 1000 }
    requires narrow { width ≤ 1000 }
    requires inside { a ≤ width }
    ensures { OnOk result (member_lists lists.new.items ≡ member_lists lists.old.items ++ map (λ b. (before + a) ∷ (before + b) ∷ []) (numbers_from (a + 1) (width - a))) }
{
    for i in 0..width - a {
        lists.push(pair(alloc, before + a, before + (a + 1 + i))?)?;
    }
    Ok(())
}

/// Adds each two of so many targets.
fn add_pairs(
    alloc: Global,
    lists: &mut Vec<Vec<u32>>,
    before: u32,
    width: u32,
) -> Result<(), AllocError>
    requires few { before ≤ 1000 }
    requires narrow { width ≤ 1000 }
    ensures { OnOk result (member_lists lists.new.items ≡ member_lists lists.old.items ++ flat_map (λ a. map (λ b. (before + a) ∷ (before + b) ∷ []) (numbers_from (a + 1) (width - a))) (numbers width)) }
{
    for i in 0..width {
        add_pairs_with(alloc, lists, before, i + 1, width)?;
    }
    Ok(())
}

/// Adds the schedules of a block.
fn add_block(
    alloc: Global,
    lists: &mut Vec<Vec<u32>>,
    before: u32,
    width: u32,
) -> Result<(), AllocError>
    requires few { before ≤ 1000 }
    requires narrow { width ≤ 1000 }
    ensures { OnOk result (member_lists lists.new.items ≡ member_lists lists.old.items ++ block_lists width before) }
{
    add_singles(alloc, lists, before, width)?;
    add_pairs(alloc, lists, before, width)?;
    Ok(())
}

/// The schedules of so many blocks.
pub(crate) fn schedules_of_blocks(
    alloc: Global,
    blocks: u32,
    width: u32,
) -> Result<Vec<Vec<u32>>, AllocError>
    requires few { blocks ≤ 8 }
    requires narrow { width ≤ 10 }
    ensures { IfOk result (λ lists. member_lists lists.items ≡ blocks_lists blocks width) }
{
    let mut lists = Vec::new(alloc);
    for k in 0..blocks {
        add_block(alloc, &mut lists, k * width, width)?;
    }
    Ok(lists)
}

/// So many numbers in a row, from `a`.
fn row_of_numbers(alloc: Global, a: u32, n: u32) -> Result<Vec<u32>, AllocError>
    requires few { a ≤ 10000 }
    requires short { n ≤ 10000 }
    ensures { IfOk result (λ list. list.items ≡ numbers_from a n) }
{
    let mut list = Vec::new(alloc);
    for i in 0..n {
        list.push(a + i)?;
    }
    Ok(list)
}

/// For each block the numbers of its schedules, of which each has so many.
pub(crate) fn shares_of_blocks(
    alloc: Global,
    blocks: u32,
    count: u32,
) -> Result<Vec<Vec<u32>>, AllocError>
    requires few { blocks ≤ 8 }
    requires short { count ≤ 500 }
    ensures { IfOk result (λ lists. member_lists lists.items ≡ shares_of blocks count) }
{
    let mut lists = Vec::new(alloc);
    for k in 0..blocks {
        lists.push(row_of_numbers(alloc, k * count + 1, count)?)?;
    }
    Ok(lists)
}
