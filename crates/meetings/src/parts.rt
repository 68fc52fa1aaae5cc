// The drive by way of the crossing where the lines meet, in its two parts.
ghost use Rattle.field.specs.Drives.{HasDrive, RegionSheet};
ghost use Rattle.field.specs.Workings.Sheet.{Marked};
ghost use Rattle.regions.specs.Promise.{MayFind};
ghost use Rattle.meetings.specs.Parts.{MayGo, Gone, MayGoBy, GoneBy};

use drives::chooser::distance;
use field::Place;
use sheets::Sheet;

// The region between two places that have a shortest drive: then it is never refused.
pub fn sure_region(s: Sheet<'_>, from: Place, to: Place, g: &mut [u8])
    requires lent { MayFind s.map.w s.map.h g.old from.x from.y to.x to.y }
    requires some { HasDrive s.map.w s.map.h (Marked s.cells.now s.map.w s.map.h) from.x from.y to.x to.y }
    ensures { RegionSheet s.entry.map.w s.entry.map.h (Marked s.entry.cells.now s.entry.map.w s.entry.map.h) from.x from.y to.x to.y g.new }
{
    let _found = regions::region(s, from, to, g);
}

// Document 01's drive between two places, where there is one and the route holds it: then nothing
// is refused.
fn part(s: Sheet<'_>, from: Place, to: Place, g: &mut [u8], route: &mut [u16], state: &mut u32)
    requires { MayGo s.map.w s.map.h s.cells.now g.old from.x from.y to.x to.y route.old }
    ensures { Gone s.entry.map.w s.entry.map.h s.entry.cells.now from.x from.y to.x to.y state.old g.new route.old route.new state.new }
{
    let _filled = drives::fill(s, from, to, g, route, state);
}

// The drive between two places by way of a third, where an open column and an open row meet; the
// state becomes the one after it. The second part starts where the first ended, on the route as
// well: it writes the number of the meeting crossing over itself. The region sheet serves both
// parts, and holds the region of s and d in the end.
pub fn drive(
    s: Sheet<'_>,
    from: Place,
    by: Place,
    to: Place,
    g: &mut [u8],
    route: &mut [u16],
    state: &mut u32,
)
    requires { MayGoBy s.map.w s.map.h s.cells.now g.old from.x from.y to.x to.y by.x by.y route.old }
    ensures { GoneBy s.entry.map.w s.entry.map.h s.entry.cells.now from.x from.y to.x to.y by.x by.y state.old g.new route.old route.new state.new }
{
    let k = distance(s.map, from, by);
    part(s, from, by, g, route, state);
    part(s, by, to, g, &mut route[k..], state);
    sure_region(s, from, to, g);
}
