//! Which lanes are told that something may happen in them.

ghost use Rattle.std.specs.Prelude.{◌≡◌, count_by};
ghost use Rattle.sg_selection.specs.Readiness.{IsFirstReady, IsNextReady, IsReadyOfNumber, is_ready};

use sg_search::Ready;

/// Whether a lane is told that something may happen in it.
fn is_ready(ready: Ready) -> bool
    ensures { result ≡ is_ready ready }
{
    match ready {
        Ready::Nothing => false,
        Ready::Begin(_) | Ready::Turn | Ready::Finish => true,
    }
}

/// How many lanes are told so.
pub(crate) fn ready_count(ready: &[Ready]) -> usize
    ensures { result ≡ count_by is_ready ready.now }
{
    ready.iter().filter(|r| is_ready(**r)).count()
}

/// The first place from here on whose lane is told so.
fn first_ready(ready: &[Ready], from: usize) -> Option<usize>
    ensures { IsFirstReady ready.now from result }
{
    'places: for place in from..ready.len() {
        if is_ready(ready[place]) {
            return Some(place);
        }
    }
    None
}

/// The place of the next lane that is told so behind the lane of this number, with lane 1 after the last.
pub(crate) fn next_ready(ready: &[Ready], before: u8) -> Option<usize>
    ensures { IsNextReady ready.now before result }
{
    match first_ready(ready, before as usize) {
        Some(place) => Some(place),
        None => first_ready(ready, 0),
    }
}

/// The place of the lane of this number, from 0, among those that are told so.
pub(crate) fn ready_of_number(ready: &[Ready], n: usize) -> Option<usize>
    ensures { IsReadyOfNumber ready.now n result }
{
    let mut passed = 0;
    'places: for place in 0..ready.len() {
        if is_ready(ready[place]) {
            if passed == n {
                return Some(place);
            }
            passed += 1;
        }
    }
    None
}
