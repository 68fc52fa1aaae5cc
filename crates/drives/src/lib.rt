// The chooser's drive, over a sheet that marks the closed crossings.
#![tactic(auto)]

pub mod chooser; // chooser.rt: the choice at a crossing, and a drive written down

ghost use Rattle.std.specs.Prelude.{◌≡◌};
ghost use Rattle.field.specs.Chooser.{drawn};
ghost use Rattle.regions.specs.Promise.{MayFind};
ghost use Rattle.drives.specs.Promise.{Makes};

use field::{Place, Refusal};
use sheets::Sheet;

// The generator's next state: 1664525 × z + 1013904223, modulo 2^32.
pub fn draw(z: u32) -> u32
    ensures { result ≡ drawn z }
{
    1664525u32.wrapping_mul(z).wrapping_add(1013904223)
}

// The chooser's drive between two ends, from the state lent, into the front of a lent route: how
// many crossings are filled. The rest of the route stays, and the state is the one after the drive.
// The region comes first, and only when there is a shortest drive is the route's length looked at:
// refused with an end closed (8), no shortest drive (9) or too short a route (10), the route and
// the state stay as they were.
pub fn fill(
    s: Sheet<'_>,
    from: Place,
    to: Place,
    g: &mut [u8],
    route: &mut [u16],
    state: &mut u32,
) -> Result<usize, Refusal>
    requires { MayFind s.map.w s.map.h g.old from.x from.y to.x to.y }
    ensures { Makes s.entry.map.w s.entry.map.h s.entry.cells.now from.x from.y to.x to.y state.old g.old g.new route.old route.new state.new result }
{
    regions::region(s, from, to, g)?;
    let length = chooser::distance(s.map, from, to) + 1;
    if route.len() < length {
        return Err(Refusal::ShortRoute);
    }
    let region = Sheet {
        cells: g,
        map: s.map,
    };
    chooser::write_drive(region, from, to, route, state);
    Ok(length)
}
