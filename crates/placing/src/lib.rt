// How well a depot is placed (document 02, Req 05), over a sheet that marks the closed crossings.
// One pass finds which crossings have a shortest drive to the depot, its four distances tell for
// which it is assured, and one count goes over the map: a fixed number of looks at each crossing.
#![tactic(auto)]

mod counts; // counts.rt: the four numbers, crossing by crossing

ghost use Rattle.std.specs.Prelude.{◌≡◌, ◌*◌, length};
ghost use Rattle.placing.specs.Promise.{CornerOf, Places};

use counts::{Home, count};
use distances::distances;
use field::{Depot, Place, Placing, Size};
use regions::reach;
use sheets::Sheet;

// The depot's corner of the map.
fn corner(depot: Depot, map: Size) -> Place
    ensures { CornerOf depot map.w map.h result }
{
    let east = map.w - 1;
    let north = map.h - 1;
    match depot {
        Depot::SouthWest => Place { x: 0, y: 0 },
        Depot::SouthEast => Place { x: east, y: 0 },
        Depot::NorthWest => Place { x: 0, y: north },
        Depot::NorthEast => Place { x: east, y: north },
    }
}

// The four numbers of a corner as depot. g is working memory: what stands on it before has no
// influence, and what it holds afterwards is not promised.
pub fn place(s: Sheet<'_>, depot: Depot, g: &mut [u8]) -> Placing
    requires { length g.old ≡ s.map.h * s.map.w }
    ensures { Places s.entry.map.w s.entry.map.h s.entry.cells.now depot g.old g.new result }
{
    let at = corner(depot, s.map);
    if s.at(at) != 0 {
        return Placing::default();
    }
    let opposite = Place {
        x: s.map.w - 1 - at.x,
        y: s.map.h - 1 - at.y,
    };
    reach(s, at, opposite, g);
    count(
        s,
        g,
        Home {
            at,
            four: distances(s, at),
        },
    )
}
