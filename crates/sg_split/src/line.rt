// Who stands where on the line of patrols.
ghost use Rattle.std.specs.Prelude.{◌≡◌, ◌≤◌, ◌<◌, ℕ, IfOk, length, ℤ, pos, ◌+ℤ◌, ◌*ℤ◌, ◌≤ℤ◌, int_le, slice_index, slice_index_or};
ghost use Rattle.sg_split.specs.Laying.{play_at, target_at};
ghost use Rattle.sg_split.specs.Lines.{IsBehind, IsLine, IsMoment, spot, spots};

use crate::place::Place;
use sqlite_items::Items;
use std::alloc::{AllocError, Global};

/// Patrols, one after another, on which counts lie end to end.
#[derive(Drop)]
pub struct Line {
    /// How many patrols there are.
    pub patrols: u16,
    /// How many moments each of them has.
    pub moments: i128,
    /// Where the count of each target ends.
    pub ends: Items<Place>,
}

/// Whether an end, counted from 0, isn't past a place.
pub(crate) fn has_ended(line: &Line, k: usize, place: &Place) -> bool
    requires line { IsLine line.now }
    requires end { k < length line.now.ends }
    requires moment { IsMoment line.now.moments place.now.moment }
    ensures { result ≡ int_le (slice_index_or (spots line.now) k (pos 0)) (spot line.now.moments place.now) }
{
    let end = line.ends.as_slice()[k];
    end.patrol < place.patrol || (end.patrol == place.patrol && end.moment <= place.moment)
}

/// The target at a place, looked for from an earlier choice on.
fn target_from(line: &Line, earlier: u16, place: &Place) -> u16
    requires line { IsLine line.now }
    requires moment { IsMoment line.now.moments place.now.moment }
    requires behind { IsBehind (spots line.now) earlier (spot line.now.moments place.now) }
    ensures { result ≡ target_at (spots line.now) (spot line.now.moments place.now) }
{
    if earlier == 0 {
        return 0;
    }
    for k in earlier as usize - 1..line.ends.len() {
        if !has_ended(line, k, place) {
            return k as u16 + 1;
        }
    }
    0
}

/// The play at the first moment.
pub(crate) fn first_play(alloc: Global, line: &Line) -> Result<Items<u16>, AllocError>
    requires { IsLine line.now }
    ensures { IfOk result (λ code. code ≡ play_at (spots line.now) line.now.patrols line.now.moments (pos 0)) }
{
    let mut code = Items::new(alloc);
    let mut target = 1;
    for patrol in 0..line.patrols {
        let place = Place { patrol, moment: 0 };
        target = target_from(line, target, &place);
        code.push(target)?;
    }
    Ok(code)
}

/// The choice of a patrol, counted from 0.
fn choice_of(code: &[u16], patrol: u16) -> u16
    requires { patrol < length code.now }
    ensures { result ≡ slice_index code.now patrol }
{
    code[patrol as usize]
}

/// A play that stands from a moment on.
#[derive(Drop)]
pub struct Standing {
    /// The choices.
    pub code: Items<u16>,
    /// The moment.
    pub moment: i128,
}

/// The play at a moment, from that at an earlier one.
pub(crate) fn play_from(
    alloc: Global,
    line: &Line,
    earlier: &Standing,
    moment: i128,
) -> Result<Items<u16>, AllocError>
    requires line { IsLine line.now }
    requires moment { IsMoment line.now.moments moment }
    requires code { earlier.now.code ≡ play_at (spots line.now) line.now.patrols line.now.moments earlier.now.moment }
    requires later { earlier.now.moment ≤ℤ moment }
    ensures { IfOk result (λ code. code ≡ play_at (spots line.now) line.now.patrols line.now.moments moment) }
{
    let mut code = Items::new(alloc);
    for patrol in 0..line.patrols {
        let place = Place { patrol, moment };
        let target = target_from(line, choice_of(earlier.code.as_slice(), patrol), &place);
        code.push(target)?;
    }
    Ok(code)
}
