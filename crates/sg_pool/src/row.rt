//! Rows.

ghost use Rattle.std.specs.Prelude.{◌≡◌, IfOk, pos, replicate};
ghost use Rattle.std.specs.Borrow.{sem};
ghost use Rattle.sg_pool.specs.Lending.{LendsPlaces};

use std::alloc::{AllocError, Global};
use std::marker::Model;

/// A row of whole numbers, seen as their list.
#[derive(Drop)]
pub struct Row {
    places: Vec<i128>,
}

impl Model for Row {
    ghost use Rattle.std.specs.Prelude.{List, ℤ};

    ghost Value = { List ℤ };

    ghost view = { λ r. r.places.items };
}

impl Row {
    /// So many zeros.
    pub(crate) fn zeros(alloc: Global, width: usize) -> Result<Row, AllocError>
        ensures { IfOk result (λ row. row ≡ replicate width (pos 0)) }
    {
        let mut places = Vec::with_capacity(alloc, width)?;
        for _ in 0..width {
            places.push(0)?;
        }
        Ok(Row { places })
    }

    /// The numbers by place, from 0.
    pub fn places(&self) -> &[i128]
        ensures { result.now ≡ self.now }
    {
        self.places.as_slice()
    }

    /// The same, to be written; the row keeps its number of places.
    pub fn places_mut(&mut self) -> &mut [i128]
        ensures* lends { sem 𝓛 (LendsPlaces self.entry result) }
        ensures value { result.now ≡ self.old }
    {
        self.places.as_mut_slice()
    }
}
