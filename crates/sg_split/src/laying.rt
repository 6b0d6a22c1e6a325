// The plays of the moments, from cut to cut.
ghost use Rattle.std.specs.Prelude.{◌≡◌, ◌≤◌, ◌<◌, ◌<ℤ◌, ℕ, IfOk, IsPermutation, int_lt, length, map, pos, ◌≤ℤ◌, slice_index_or};
ghost use Rattle.sg_split.specs.Lines.{AreCuts, AreUpTo, IsApart, IsLaid, IsLine, IsMoment};

use crate::line::{Line, Standing, first_play, play_from};
use crate::place::Place;
use sg_model::{Play, Ticket};
use std::alloc::{AllocError, Global};

/// Sorts the numbers.
fn sort(numbers: &mut [i128])
    ensures permutation { IsPermutation numbers.old numbers.new }
    ensures rising { (i j : ℕ) → i ≤ j → j < length numbers.new → slice_index_or numbers.new i (pos 0) ≤ℤ slice_index_or numbers.new j (pos 0) }
{
    numbers.sort_unstable();
}

/// The moments of ends.
fn moments_of(alloc: Global, ends: &[Place]) -> Result<Vec<i128>, AllocError>
    ensures { IfOk result (λ moments. moments.items ≡ map (λ end. end.moment) ends.now) }
{
    let mut moments = Vec::new(alloc);
    for end in ends {
        moments.push(end.moment)?;
    }
    Ok(moments)
}

/// The moments of ends, in rising order.
fn cuts_of(alloc: Global, ends: &[Place]) -> Result<Vec<i128>, AllocError>
    ensures { IfOk result (λ cuts. AreCuts ends.now cuts.items) }
{
    let mut cuts = moments_of(alloc, ends)?;
    sort(cuts.as_mut_slice());
    Ok(cuts)
}

/// Tickets for all moments up to one, and the play that stands from there on.
#[derive(Drop)]
pub struct Laid {
    pub tickets: Vec<Ticket>,
    pub last: Standing,
}

/// Tickets for no moment yet.
fn start(alloc: Global, line: &Line) -> Result<Laid, AllocError>
    requires { IsLine line.now }
    ensures { IfOk result (λ laid. IsLaid line.now laid.tickets.items laid.last) }
{
    let code = first_play(alloc, line)?;
    Ok(Laid {
        tickets: Vec::new(alloc),
        last: Standing { code, moment: 0 },
    })
}

/// One more ticket, up to a later moment or the end.
fn push(laid: Laid, line: &Line, to: i128) -> Result<Vec<Ticket>, AllocError>
    requires line { IsLine line.now }
    requires laid { IsLaid line.now laid.tickets.items laid.last }
    requires later { laid.last.moment <ℤ to }
    requires within { to ≤ℤ line.now.moments }
    requires apart { IsApart line.now.ends laid.last.moment to }
    ensures { IfOk result (λ tickets. AreUpTo line.now to tickets.items) }
{
    let Laid { mut tickets, last } = laid;
    let Standing { code, moment } = last;
    tickets.push(Ticket {
        play: Play { code },
        weight: to - moment,
    })?;
    Ok(tickets)
}

/// Whether a cut comes after the moment from which a play stands.
fn is_later(cut: i128, last: &Standing) -> bool
    ensures { result ≡ int_lt last.now.moment cut }
{
    last.moment < cut
}

/// One more ticket, up to the next cut.
fn lay(alloc: Global, line: &Line, laid: Laid, cut: i128) -> Result<Laid, AllocError>
    requires line { IsLine line.now }
    requires laid { IsLaid line.now laid.tickets.items laid.last }
    requires cut { IsMoment line.now.moments cut }
    requires later { laid.last.moment <ℤ cut }
    requires apart { IsApart line.now.ends laid.last.moment cut }
    ensures laid { IfOk result (λ more. IsLaid line.now more.tickets.items more.last) }
    ensures moment { IfOk result (λ more. more.last.moment ≡ cut) }
{
    let code = play_from(alloc, line, &laid.last, cut)?;
    let tickets = push(laid, line, cut)?;
    let last = Standing { code, moment: cut };
    Ok(Laid { tickets, last })
}

/// Tickets from the first moment to the last cut.
fn lay_all(alloc: Global, line: &Line, cuts: &[i128]) -> Result<Laid, AllocError>
    requires line { IsLine line.now }
    requires cuts { AreCuts line.now.ends cuts.now }
    ensures laid { IfOk result (λ laid. IsLaid line.now laid.tickets.items laid.last) }
    ensures last { IfOk result (λ laid. IsApart line.now.ends laid.last.moment line.now.moments) }
{
    let mut laid = start(alloc, line)?;
    for cut in cuts {
        if is_later(*cut, &laid.last) {
            laid = lay(alloc, line, laid, *cut)?;
        }
    }
    Ok(laid)
}

/// Tickets for all moments.
pub(crate) fn tickets_of(alloc: Global, line: &Line) -> Result<Vec<Ticket>, AllocError>
    requires { IsLine line.now }
    ensures { IfOk result (λ tickets. AreUpTo line.now line.now.moments tickets.items) }
{
    let cuts = cuts_of(alloc, line.ends.as_slice())?;
    let laid = lay_all(alloc, line, cuts.as_slice())?;
    push(laid, line, line.moments)
}
