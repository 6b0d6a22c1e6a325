//! Game files that are none after the change of one piece.
use crate::changed_lists::FOUR_TARGETS_CHANGED;
use crate::changed_patrols::TWO_TARGETS_CHANGED;
use crate::changed_types::{MATRIX_CHANGED, TWO_TYPES_CHANGED};
use crate::reasons::is_refused;
use sg_file::read_game;
use sg_game::Place;
use std::alloc::{AllocError, Global};

/// A file, a piece of it, what stands in its place, and the reason and place of the refusal.
pub(crate) type Changed = (&'static str, &'static str, &'static str, u8, Place);

/// The first change, counted from 0, that is not refused so.
fn first_change_let_through(alloc: Global, cases: &[Changed]) -> Result<Option<usize>, AllocError> {
    for k in 0..cases.len() {
        let (text, old, new, reason, place) = cases[k];
        let changed = text.replace(alloc, old, new)?;
        if !is_refused(read_game(alloc, changed.as_bytes()), reason, place) {
            return Ok(Some(k));
        }
    }
    Ok(None)
}

#[test]
fn refuses_changed_files(rt: HostRuntime) -> Result<(), AllocError> {
    let alloc = rt.alloc();
    assert_eq!(rt;
        first_change_let_through(alloc, &TWO_TARGETS_CHANGED)?,
        None
    );
    assert_eq!(rt;
        first_change_let_through(alloc, &FOUR_TARGETS_CHANGED)?,
        None
    );
    assert_eq!(rt; first_change_let_through(alloc, &MATRIX_CHANGED)?, None);
    assert_eq!(rt; first_change_let_through(alloc, &TWO_TYPES_CHANGED)?, None);
    Ok(())
}
