// The four numbers of a depot, crossing by crossing: s marks the closed crossings, g those with a
// shortest drive to the depot, and the depot's four distances tell for which it is assured.
ghost use Rattle.std.specs.Prelude.{◌≡◌, ◌*◌, ◌<◌, ◌&&◌, length, slice_index};
ghost use Rattle.field.specs.Workings.Looking.{axis_of};
ghost use Rattle.field.specs.Workings.Placing.{adds};
ghost use Rattle.placing.specs.Counting.{row_at, count_of};

use distances::axis;
use field::{Place, Placing};
use sheets::{Sheet, number_of};

// The depot's place, and its four distances: east, south, west, north.
#[derive(Clone, Copy)]
pub struct Home {
    pub at: Place,
    pub four: [u16; 4],
}

impl Home {
    // Whether row y leaves the depot assured.
    fn level(self, y: usize) -> bool
        ensures { result ≡ axis_of (slice_index self.four 3) (slice_index self.four 1) self.at.y y }
    {
        axis(self.four[3], self.four[1], self.at.y, y)
    }

    // Whether column x leaves the depot assured, where the row does; the row's test is made once.
    fn sure(self, level: bool, x: usize) -> bool
        ensures { result ≡ (level && axis_of (slice_index self.four 0) (slice_index self.four 2) self.at.x x) }
    {
        level && axis(self.four[0], self.four[2], self.at.x, x)
    }
}

// What one crossing adds: whether it is free of marks, whether the depot is then assured for it,
// and whether it has a shortest drive to the depot. The last two are told apart: that the first
// brings the second is a theorem about the labelling, and not about every sheet.
fn added(free: bool, sure: bool, drive: bool) -> Placing
    ensures { result ≡ adds free sure drive }
{
    Placing {
        opens: u64::from(free),
        assured: u64::from(free && sure),
        driven: u64::from(free && (!sure && drive)),
        stranded: u64::from(free && !drive),
    }
}

// The four numbers of row y.
fn count_row(s: Sheet<'_>, g: &[u8], home: Home, y: usize) -> Placing
    requires lent { length g.now ≡ s.map.h * s.map.w }
    requires in_y { y < s.map.h }
    ensures { result ≡ row_at s.entry.cells.now g.now s.entry.map.w home.four home.at.x home.at.y y }
{
    let level = home.level(y);
    let mut p = Placing::default();
    for x in 0..s.map.w {
        let i = number_of(s.map, Place { x, y });
        p = p + added(s.cells[i] == 0, home.sure(level, x), g[i] > 0);
    }
    p
}

// The four numbers of the map, row by row.
pub fn count(s: Sheet<'_>, g: &[u8], home: Home) -> Placing
    requires { length g.now ≡ s.map.h * s.map.w }
    ensures { result ≡ count_of s.entry.cells.now g.now s.entry.map.w home.four home.at.x home.at.y s.entry.map.h }
{
    let mut p = Placing::default();
    for y in 0..s.map.h {
        p = p + count_row(s, g, home, y);
    }
    p
}
