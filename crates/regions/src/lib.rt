// The region of shortest drives, over a sheet that marks the closed crossings.
#![tactic(auto)]

pub mod looks; // looks.rt: looks at a sheet of marks
mod passes; // passes.rt: the two passes that make the region

ghost use Rattle.regions.specs.Promise.{MayFind, Regioned};
ghost use Rattle.regions.specs.Reaching.{Reached};

use field::{Place, Refusal};
use sheets::{Sheet, number_of};

// The region between two ends into a lent sheet, which is its own working memory: refused with an
// end closed (8) or no shortest drive (9). A pass from s marks what a shortest drive from s reaches
// inside the rectangle that s and d span; a pass from d then keeps what also reaches d. With an end
// closed the sheet stays as it was; with no shortest drive it ends all 0, and then s itself has no
// mark.
pub fn region(s: Sheet<'_>, from: Place, to: Place, g: &mut [u8]) -> Result<(), Refusal>
    requires { MayFind s.map.w s.map.h g.old from.x from.y to.x to.y }
    ensures { Regioned s.entry.map.w s.entry.map.h s.entry.cells.now from.x from.y to.x to.y g.old g.new result }
{
    if s.at(from) != 0 || s.at(to) != 0 {
        return Err(Refusal::EndClosed);
    }
    g.fill(0);
    passes::spread(s, from, to, g);
    passes::sift(s.map, to, from, g);
    if g[number_of(s.map, from)] == 0 {
        return Err(Refusal::NoDrive);
    }
    Ok(())
}

// One pass alone: of each crossing of the rectangle that the two ends span, whether it has a
// shortest drive to the end from, 1 or 0. With that end a corner of the map and the other one the
// opposite corner that is the whole map, at the cost of one look at each crossing and its
// neighbours, and the sheet need not be wiped first.
pub fn reach(s: Sheet<'_>, from: Place, to: Place, g: &mut [u8])
    requires { MayFind s.map.w s.map.h g.old from.x from.y to.x to.y }
    ensures { Reached s.entry.map.w s.entry.map.h s.entry.cells.now from.x from.y to.x to.y g.old g.new }
{
    passes::spread(s, from, to, g);
}
