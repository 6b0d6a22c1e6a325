// Places on the line that the patrols make up, and where counts end on it.
ghost use Rattle.std.specs.Prelude.{◌≡◌, ◌≤◌, ◌<◌, ◌^◌, ◌+◌, ◌-◌, All, IfOk, length, map, pos, ◌+ℤ◌, ◌≤ℤ◌};
ghost use Rattle.sg_model.specs.Limits.{IsWithin};
ghost use Rattle.sg_split.specs.Laying.{ends_from};
ghost use Rattle.sg_split.specs.Lines.{IsMoment, spot};

use sqlite_items::Items;
use std::alloc::{AllocError, Global};

/// A place on the line: a patrol, counted from 0, and one of its moments, from 0 to below their number.
///
/// As a number it may be above all that 128 bits hold, so it stays a pair.
#[derive(Clone, Copy)]
pub struct Place {
    pub patrol: u16,
    pub moment: i128,
}

/// The place that lies so many places further on, where a patrol has so many moments.
fn further(place: &Place, count: i128, moments: i128) -> Place
    requires moment { IsMoment moments place.now.moment }
    requires count { IsWithin (pos 0) moments count }
    requires patrol { place.now.patrol < 2 ^ 16 - 1 }
    ensures spot { spot moments result ≡ spot moments place.now +ℤ count }
    ensures moment { IsMoment moments result.moment }
    ensures patrol { result.patrol ≤ place.now.patrol + 1 }
{
    let left = moments - place.moment;
    if count < left {
        Place {
            patrol: place.patrol,
            moment: place.moment + count,
        }
    } else {
        Place {
            patrol: place.patrol + 1,
            moment: count - left,
        }
    }
}

/// Where counts end, laid end to end from place 0, where a patrol has so many moments.
pub(crate) fn ends_of(
    alloc: Global,
    counts: &[i128],
    moments: i128,
) -> Result<Items<Place>, AllocError>
    requires positive { pos 1 ≤ℤ moments }
    requires within { All (IsWithin (pos 0) moments) counts.now }
    requires few { length counts.now < 2 ^ 16 - 1 }
    ensures spots { IfOk result (λ ends. map (spot moments) ends ≡ ends_from (pos 0) counts.now) }
    ensures each { IfOk result (λ ends. All (λ end. IsMoment moments end.moment) ends) }
{
    let mut ends = Items::new(alloc);
    let mut place = Place {
        patrol: 0,
        moment: 0,
    };
    for count in counts {
        place = further(&place, *count, moments);
        ends.push(place)?;
    }
    Ok(ends)
}
