// The chooser: its choice at a crossing, and the drive that it makes.
ghost use Rattle.std.specs.Prelude.{◌≡◌};
ghost use Rattle.regions.specs.Promise.{Ends};
ghost use Rattle.drives.specs.Hops.{Choosable, Chose, Steered, DriveWritten, Reckoned, row_taken};

use super::draw;
use field::{Place, Size};
use regions::looks::{east_west, north_south};
use sheets::{Sheet, hop, number_of};

// The lowest state whose top bit is 1.
const TOP_BIT: u32 = 2147483648;

// Where the chooser goes, and the state after its choice.
#[derive(Clone, Copy, Debug, PartialEq, Eq)]
pub struct Choice {
    pub at: Place,
    pub state: u32,
}

// "their distance: east-west plus north-south offset"
pub fn distance(map: Size, a: Place, b: Place) -> usize
    requires { Ends map.w map.h a.x a.y b.x b.y }
    ensures { Reckoned a.x a.y b.x b.y result }
{
    a.x.abs_diff(b.x) + a.y.abs_diff(b.y)
}

// Whether the chooser goes along the row, by which candidates there are and the state drawn: with
// two, the top bit 0 takes the east-west one; with one, take it, and the draw is thrown away.
fn takes_row(row: bool, column: bool, state: u32) -> bool
    ensures { result ≡ row_taken row column state }
{
    row && (!column || state < TOP_BIT)
}

// The choice at p in state z. The candidates are the marked hops towards d. Draw once.
pub fn choose(g: Sheet<'_>, to: Place, p: Place, z: u32) -> Choice
    requires { Choosable g.map.w g.map.h g.cells.now to.x to.y p.x p.y }
    ensures { Chose g.entry.map.w g.entry.map.h g.entry.cells.now to.x to.y p.x p.y z result }
{
    let row = east_west(g, to, p);
    let column = north_south(g, to, p);
    let state = draw(z);
    let at = if takes_row(row, column, state) {
        Place {
            x: hop(p.x, to.x),
            y: p.y,
        }
    } else {
        Place {
            x: p.x,
            y: hop(p.y, to.y),
        }
    };
    Choice { at, state }
}

// Writes the chooser's drive to the route's front, from the state lent, which becomes the one after
// it. There are as many hops as the distance; k of them are made. Sixteen bits hold each number:
// that is proved, so the casts need no test.
pub fn write_drive(g: Sheet<'_>, from: Place, to: Place, route: &mut [u16], state: &mut u32)
    requires { Steered g.map.w g.map.h g.cells.now from.x from.y to.x to.y route.old }
    ensures { DriveWritten g.entry.map.w g.entry.map.h g.entry.cells.now from.x from.y to.x to.y state.old route.old route.new state.new }
{
    let n = distance(g.map, from, to);
    let mut at = from;
    for k in 0..n {
        route[k] = number_of(g.map, at) as u16;
        let c = choose(g, to, at, *state);
        at = c.at;
        *state = c.state;
    }
    route[n] = number_of(g.map, at) as u16;
}
