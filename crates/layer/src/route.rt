// The drive in the form that document 01 names: the filled part of the lent route is handed back. A
// returned reference cannot be exported to C, so this call is for Rattle alone; `bodkin_drive`
// makes the same drive, and answers how many crossings it has.
ghost use Rattle.calls.specs.Calls.{RouteCall};
ghost use Rattle.layer.specs.Prepared.{lent_of};

use super::{LentMap, bodkin_drive};
use calls::Drove;
use field::Place;

// A shortest drive between two places, drawn from the lent state, handed back as the leading part
// of the lent route: s first and d last, and on a refusal empty. The number, 0 on success or 1, 2,
// 3, 4, 8, 9 or 10, goes out through `refusal`. Nothing is written to the route after
// `bodkin_drive`, which says what the rest of it holds.
pub fn drive<'a>(
    lent: LentMap<'_>,
    from: Place,
    to: Place,
    labels: &mut [u8],
    region: &mut [u8],
    route: &'a mut [u16],
    refusal: &mut u8,
    state: &mut u32,
) -> &'a mut [u16]
    ensures { RouteCall (lent_of lent.entry) from.x from.y to.x to.y labels.old region.old route.old state.old labels.new region.new result.now refusal.new state.new route.entry.ref_ptr result.ref_ptr }
{
    let drove = Drove::from(bodkin_drive(lent, from, to, labels, region, route, state));
    *refusal = drove.refusal;
    let length = drove.length;
    &mut route[..length]
}
