// Looks at a sheet of marks, one hop from a crossing towards another.
ghost use Rattle.std.specs.Prelude.{◌≡◌};
ghost use Rattle.field.specs.Workings.Reaching.{east_west_in, north_south_in};
ghost use Rattle.regions.specs.Promise.{Ends};
ghost use Rattle.regions.specs.Passes.{backed};

use field::Place;
use sheets::{Sheet, hop};

// Whether the sheet has a mark one hop from p along the row, towards the end's column.
pub fn east_west(g: Sheet<'_>, end: Place, p: Place) -> bool
    requires { Ends g.map.w g.map.h end.x end.y p.x p.y }
    ensures { result ≡ east_west_in g.entry.cells.now g.entry.map.w g.entry.map.h end.x p.x p.y }
{
    p.x != end.x
        && g.at(Place {
            x: hop(p.x, end.x),
            y: p.y,
        }) != 0
}

// Whether the sheet has a mark one hop from p along the column, towards the end's row.
pub fn north_south(g: Sheet<'_>, end: Place, p: Place) -> bool
    requires { Ends g.map.w g.map.h end.x end.y p.x p.y }
    ensures { result ≡ north_south_in g.entry.cells.now g.entry.map.w g.entry.map.h end.y p.x p.y }
{
    p.y != end.y
        && g.at(Place {
            x: p.x,
            y: hop(p.y, end.y),
        }) != 0
}

// Whether p is the end or has a mark one hop nearer it.
pub fn has_back(g: Sheet<'_>, end: Place, p: Place) -> bool
    requires { Ends g.map.w g.map.h end.x end.y p.x p.y }
    ensures { result ≡ backed g.entry.cells.now g.entry.map.w g.entry.map.h end.x end.y p.x p.y }
{
    p == end || east_west(g, end, p) || north_south(g, end, p)
}
