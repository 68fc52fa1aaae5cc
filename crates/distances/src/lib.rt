// Clear distances of one crossing, and whether home is assured, over a sheet that marks the closed
// crossings.
#![tactic(auto)]

mod look; // look.rt: the distance of one crossing, one way

ghost use Rattle.std.specs.Prelude.{◌≡◌, true, ◌↔◌};
ghost use Rattle.field.specs.Distances.{Distances, Assured};
ghost use Rattle.field.specs.Workings.Sheet.{Marked};
ghost use Rattle.field.specs.Workings.Looking.{enough_of, axis_of};
ghost use Rattle.distances.specs.Promise.{AskedHome};
ghost use Rattle.field.specs.Map.{On};

use field::{NO_DISTANCE, Place};
pub use look::Way;
use look::look;
use sheets::Sheet;

// What stands for a distance where there is none.
pub const NONE: u16 = NO_DISTANCE;

// The four distances of a crossing, east, south, west, north.
pub fn distances(s: Sheet<'_>, p: Place) -> [u16; 4]
    requires { On s.map.w s.map.h p.x p.y }
    ensures { Distances (Marked s.entry.cells.now s.entry.map.w s.entry.map.h) p.x p.y result }
{
    [
        look(s, p, Way::East),
        look(s, p, Way::South),
        look(s, p, Way::West),
        look(s, p, Way::North),
    ]
}

// Whether home's distance that way leaves room for the offset: it is none, or the offset is at most
// that. No other function compares the two.
fn enough(offset: usize, n: u16) -> bool
    ensures { result ≡ enough_of offset n }
{
    n == NONE || offset <= usize::from(n)
}

// Whether one axis lets home at m be assured for the place at p, with home's distances upwards and
// downwards on it.
pub fn axis(up: u16, down: u16, m: usize, p: usize) -> bool
    ensures { result ≡ axis_of up down m p }
{
    if m < p {
        return enough(p - m, up);
    }
    if p < m {
        return enough(m - p, down);
    }
    true
}

// Whether home is assured for a place.
pub fn assured(s: Sheet<'_>, home: Place, p: Place) -> bool
    requires { AskedHome s.map.w s.map.h home.x home.y p.x p.y }
    ensures { (result ≡ true) ↔ Assured s.entry.map.w s.entry.map.h (Marked s.entry.cells.now s.entry.map.w s.entry.map.h) home.x home.y p.x p.y }
{
    if s.at(home) != 0 || s.at(p) != 0 {
        return false;
    }
    let [east, south, west, north] = distances(s, home);
    axis(east, west, home.x, p.x) && axis(north, south, home.y, p.y)
}
