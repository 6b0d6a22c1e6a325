// The part of a perfect matching that lies on the counts, and the same with rows and columns exchanged.
ghost use Rattle.std.specs.Prelude.{◌≡◌, ◌<◌, ◌≤◌, ◌+◌, ◌^◌, ℕ, length, slice_index};
ghost use Rattle.sg_matchings.specs.Mirrors.{AreSeparate, AreReset, IsMirror};

/// Each column of the counts has its own row below them.
fn reset(columns: &mut [usize], count: usize, width: usize)
    requires long { length columns.old ≡ count + width }
    ensures { AreReset count width columns.old columns.new }
{
    for t in 0..width {
        columns[count + t] = t;
    }
}

/// Each row of the counts that is not matched has its own column behind them, and each matched pair stands there the other way round.
fn turn(columns: &mut [usize], count: usize, width: usize)
    requires long { length columns.old ≡ count + width }
    requires fits { count + width < 2 ^ 64 }
    requires apart { AreSeparate count width columns.old }
    requires own { (t : ℕ) → t < width → slice_index columns.old (count + t) ≡ t }
    ensures { IsMirror count width columns.old columns.new }
{
    for i in 0..count {
        let column = columns[i];
        if column < width {
            columns[count + column] = width + i;
        } else {
            columns[i] = width + i;
        }
    }
}

/// Keeps of a matching what lies on the counts, and sets the rest to its mirror.
pub(crate) fn mirror(columns: &mut [usize], count: usize, width: usize)
    requires long { length columns.old ≡ count + width }
    requires fits { count + width < 2 ^ 64 }
    requires apart { AreSeparate count width columns.old }
    ensures { IsMirror count width columns.old columns.new }
{
    reset(columns, count, width);
    turn(columns, count, width);
}
