// The crossing-lines test, over a sheet that marks the closed crossings, and the drive by way of
// the crossing where the lines meet.
#![tactic(auto)]

mod parts; // parts.rt: the drive in its two parts
mod search; // search.rt: the search for open lines

ghost use Rattle.field.specs.Workings.Sheet.{Marked};
ghost use Rattle.regions.specs.Promise.{Ends};
ghost use Rattle.meetings.specs.Promise.{Says, MayJoin, Joins};

use drives::chooser::distance;
use field::{Place, Refusal};
use search::{Line, Span, first_open};
use sheets::{Sheet, number_of};

// Whether some column and some row between two places are open throughout the rectangle that the
// two span: where the westmost such column and the southmost such row meet. Columns are looked at
// from the west, rows from the south, each crossing of the rectangle at most once for either.
pub fn lines(s: Sheet<'_>, from: Place, to: Place) -> Option<Place>
    requires { Ends s.map.w s.map.h from.x from.y to.x to.y }
    ensures { Says s.entry.map.w s.entry.map.h (Marked s.entry.cells.now s.entry.map.w s.entry.map.h) from.x from.y to.x to.y result }
{
    let x = Span::between(from.x, to.x);
    let y = Span::between(from.y, to.y);
    let first = number_of(s.map, Place { x: x.low, y: y.low });
    let west = Line {
        first,
        step: s.map.w,
        many: y.many,
    };
    let Some(column) = first_open(s.cells, west, 1, x.many) else {
        return None; // no column is open
    };
    let south = Line {
        first,
        step: 1,
        many: x.many,
    };
    let Some(row) = first_open(s.cells, south, s.map.w, y.many) else {
        return None; // no row is open
    };
    Some(Place {
        x: x.low + column,
        y: y.low + row,
    })
}

// The drive between two open places by way of the crossing where the westmost open column and the
// southmost open row meet, from the state lent, into the front of a lent route: how many crossings
// are filled. The rest of the route stays, and the state is the one after the drive. Without such
// lines (19) neither the region sheet nor the route is touched; where the route is too short (10)
// the sheet holds the region of s and d, as after the drive.
pub fn join(
    s: Sheet<'_>,
    from: Place,
    to: Place,
    g: &mut [u8],
    route: &mut [u16],
    state: &mut u32,
) -> Result<usize, Refusal>
    requires { MayJoin s.map.w s.map.h s.cells.now g.old from.x from.y to.x to.y }
    ensures { Joins s.entry.map.w s.entry.map.h s.entry.cells.now from.x from.y to.x to.y state.old g.old g.new route.old route.new state.new result }
{
    let Some(by) = lines(s, from, to) else {
        return Err(Refusal::NoLines);
    };
    let length = distance(s.map, from, to) + 1;
    if route.len() < length {
        parts::sure_region(s, from, to, g);
        return Err(Refusal::ShortRoute);
    }
    parts::drive(s, from, by, to, g, route, state);
    Ok(length)
}
