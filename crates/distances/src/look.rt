// The distance of one crossing, one way: the hops to the first mark along its row or column, or
// none. The crossing itself is looked at first, so that a closed crossing has 0.
ghost use Rattle.field.specs.Map.{On};
ghost use Rattle.field.specs.Distances.{Clear};
ghost use Rattle.field.specs.Workings.Sheet.{Marked};
ghost use Rattle.distances.specs.Looking.{towards, Edge, Within, After};

use crate::NONE;
use field::{Place, Size};
use sheets::Sheet;

// "east, south, west, north, in that order"
#[derive(Clone, Copy, Debug, PartialEq, Eq)]
pub enum Way {
    East,
    South,
    West,
    North,
}

impl Way {
    // The hops from a place to the map's edge this way.
    fn room(self, map: Size, p: Place) -> usize
        requires { On map.w map.h p.x p.y }
        ensures { Edge (towards self) map.w map.h p.x p.y result }
    {
        match self {
            Way::East => map.w - 1 - p.x,
            Way::South => p.y,
            Way::West => p.x,
            Way::North => map.h - 1 - p.y,
        }
    }

    // The crossing k hops this way from a place.
    fn after(self, map: Size, p: Place, k: usize) -> Place
        requires { Within (towards self) map.w map.h p.x p.y k }
        ensures { After (towards self) map.w map.h p.x p.y k result.x result.y }
    {
        match self {
            Way::East => Place { x: p.x + k, y: p.y },
            Way::South => Place { x: p.x, y: p.y - k },
            Way::West => Place { x: p.x - k, y: p.y },
            Way::North => Place { x: p.x, y: p.y + k },
        }
    }
}

// One look for all four ways: from the crossing itself to the edge, until a mark is met.
pub(crate) fn look(s: Sheet<'_>, p: Place, way: Way) -> u16
    requires { On s.map.w s.map.h p.x p.y }
    ensures { Clear (Marked s.entry.cells.now s.entry.map.w s.entry.map.h) (towards way) p.x p.y result }
{
    for k in 0..=way.room(s.map, p) {
        if s.at(way.after(s.map, p, k)) != 0 {
            return k as u16;
        }
    }
    NONE
}
