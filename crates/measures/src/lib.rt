// Clear distances of the whole map, over a sheet that marks the closed crossings. Each sheet is
// first given what every crossing has by itself, 0 where it is closed and none elsewhere; a running
// number then goes over it from the edge on, along each row or each column. No crossing is looked
// at again for another.
#![tactic(auto)]

mod across; // across.rt: the running numbers along the columns, south and north
mod along; // along.rt: the running number along a row, east and west
mod each; // each.rt: what is done to every crossing by itself
mod fours; // fours.rt: four numbers at a time

ghost use Rattle.std.specs.Prelude.{◌≡◌, ◌*◌, length};
ghost use Rattle.field.specs.Distances.{DistanceSheet};
ghost use Rattle.field.specs.Workings.Sheet.{Marked};
ghost use Rattle.distances.specs.Looking.{towards};
ghost use Rattle.measures.specs.Promise.{SheetsLent, Measured};

use distances::Way;
use each::{End, own};
use sheets::Sheet;

// The distances one way. Looking east or north the high edge comes first, and west or south the low
// one.
fn sheet(s: Sheet<'_>, way: Way, out: &mut [u16])
    requires { length out.old ≡ s.map.h * s.map.w }
    ensures { DistanceSheet s.entry.map.w s.entry.map.h (Marked s.entry.cells.now s.entry.map.w s.entry.map.h) (towards way) out.new }
{
    own(s.cells, out);
    match way {
        Way::East => along::rows(s.map, End::High, out),
        Way::South => across::rows(s.map, End::Low, out),
        Way::West => along::rows(s.map, End::Low, out),
        Way::North => across::rows(s.map, End::High, out),
    }
}

// The distances of the whole map, one sheet for each way.
pub fn measure(
    s: Sheet<'_>,
    east: &mut [u16],
    south: &mut [u16],
    west: &mut [u16],
    north: &mut [u16],
)
    requires { SheetsLent s.map.w s.map.h east.old south.old west.old north.old }
    ensures { Measured s.entry.map.w s.entry.map.h s.entry.cells.now east.new south.new west.new north.new }
{
    sheet(s, Way::East, east);
    sheet(s, Way::South, south);
    sheet(s, Way::West, west);
    sheet(s, Way::North, north);
}
