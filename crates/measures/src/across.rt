// Distances to the south and to the north: a running number for each column, all of them at once,
// row after row from the edge on.
ghost use Rattle.std.specs.Prelude.{◌≡◌, ◌*◌, length};
ghost use Rattle.measures.specs.Running.{onward, Beside, RowMade, ColumnsRun};

use crate::each::End;
use field::{NO_DISTANCE, Place, Size};

// A crossing's number, of its neighbour's and of its own: 0 where it is closed, none where the
// neighbour has none, and else one more.
fn run_on(last: u16, own: u16) -> u16
    ensures { result ≡ onward last own }
{
    if own == 0 {
        return 0;
    }
    if last == NO_DISTANCE {
        return NO_DISTANCE;
    }
    last + 1
}

// Row y, of its own numbers and of row z, which it looks to. Nothing in it waits for its neighbour
// in the row, so a compiler takes it many crossings at a time.
fn row(map: Size, y: usize, z: usize, out: &mut [u16])
    requires { Beside map.w map.h y z out.old }
    ensures { RowMade map.w map.h y z out.old out.new }
{
    for x in 0..map.w {
        let i = sheets::number_of(map, Place { x, y });
        let j = sheets::number_of(map, Place { x, y: z });
        out[i] = run_on(out[j], out[i]);
    }
}

// Every row but the one at the edge, whose own numbers are its distances.
pub(crate) fn rows(map: Size, end: End, out: &mut [u16])
    requires { length out.old ≡ map.h * map.w }
    ensures { ColumnsRun map.w map.h end out.old out.new }
{
    for k in 1..map.h {
        row(map, end.place(map.h, k), end.place(map.h, k - 1), out);
    }
}
