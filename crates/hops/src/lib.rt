// Single hops homeward, over a sheet that marks the closed crossings.
#![tactic(auto)]

ghost use Rattle.std.specs.Prelude.{◌≡◌};
ghost use Rattle.field.specs.Hops.{Answers};
ghost use Rattle.field.specs.Workings.Sheet.{Marked};
ghost use Rattle.distances.specs.Promise.{AskedHome};
ghost use Rattle.hops.specs.Promise.{answered, MayHop};
ghost use Rattle.hops.specs.Leading.{along, Moved, Leads};

use field::{Hops, Place};
use sheets::Sheet;

// The two axes that a hop may lead along.
#[derive(Clone, Copy, Debug, PartialEq, Eq)]
enum Axis {
    Row,
    Column,
}

impl Axis {
    // Where on the axis a place is.
    fn of(self, p: Place) -> usize
        ensures { result ≡ along self p.x p.y }
    {
        match self {
            Axis::Row => p.x,
            Axis::Column => p.y,
        }
    }

    // The place at a on this axis through p.
    fn moved(self, p: Place, a: usize) -> Place
        ensures { Moved self a p.x p.y result }
    {
        match self {
            Axis::Row => Place { x: a, y: p.y },
            Axis::Column => Place { x: p.x, y: a },
        }
    }
}

// The crossing to which the hop along an axis leads, where it is permitted: home is elsewhere on the
// axis, and the hop's end is open.
fn permitted(s: Sheet<'_>, home: Place, p: Place, axis: Axis) -> Option<Place>
    requires { AskedHome s.map.w s.map.h home.x home.y p.x p.y }
    ensures { Leads axis s.entry.cells.now s.entry.map.w s.entry.map.h home.x home.y p.x p.y result }
{
    let from = axis.of(p);
    let to = axis.of(home);
    if from == to {
        return None;
    }
    let end = axis.moved(p, sheets::hop(from, to));
    if s.at(end) != 0 {
        return None;
    }
    Some(end)
}

// The permitted hops from p towards home, which is assured for it.
pub fn hop(s: Sheet<'_>, home: Place, p: Place) -> Hops
    requires { MayHop s.map.w s.map.h s.cells.now home.x home.y p.x p.y }
    ensures { Answers s.entry.map.w s.entry.map.h (Marked s.entry.cells.now s.entry.map.w s.entry.map.h) home.x home.y p.x p.y (answered result) }
{
    let row = permitted(s, home, p, Axis::Row);
    let column = permitted(s, home, p, Axis::Column);
    match (row, column) {
        (Some(a), Some(b)) => Hops::Two(a, b),
        (Some(a), None) => Hops::One(a),
        (None, Some(b)) => Hops::One(b),
        (None, None) => Hops::There,
    }
}
