// The public calls over the lent list of marker records. No call relies on its caller: each answers
// by the lowest refusal that applies, or succeeds.
#![tactic(auto)]

pub mod files; // files.rt: the two map-file calls
pub mod morning; // morning.rt: the hop by a morning sheet
pub mod pictures; // pictures.rt: the two picture calls
mod preparing; // preparing.rt: the first part of every asking
pub mod route; // route.rt: the drive, of which a part of the route is handed back

ghost use Rattle.std.specs.Prelude.{◌≡◌};
ghost use Rattle.field.specs.Refusals.{told};
ghost use Rattle.calls.specs.Rules.{lent_map, lent_list};
ghost use Rattle.calls.specs.Told.{counted, labelling, swept, four, assurance, homeward_of, drove, checked, crossing_lines};
ghost use Rattle.calls.specs.Calls.{EnterCall, ClearCall, LabelCall, DistancesCall, MeasureCall, AssuredCall, HopCall, RegionCall, DriveCall};
ghost use Rattle.calls.specs.CheckCall.{CheckCall};
ghost use Rattle.calls.specs.SweepsCall.{SweepsCall};
ghost use Rattle.calls.specs.LinesCall.{LinesCall, LinesDriveCall};
ghost use Rattle.layer.specs.Prepared.{lent_of, Seeks};

use field::{Fault, Hops, Labelled, Marker, Place, Refusal};
use preparing::{ORIGIN, prepare};
use records::Spot;

// What is lent with every asking: "a list of marker records with a count of those in use", the
// map's width and height, and the ground clearance of the cart that asks, in centimetres as the
// markers' heights are. Nothing is known of it: each call judges it.
#[derive(Clone, Copy, Debug, PartialEq, Eq)]
pub struct LentMap<'a> {
    pub list: &'a [Marker],
    pub count: usize,
    pub w: usize,
    pub h: usize,
    pub clearance: u16,
}

impl<'a> LentMap<'a> {
    // The five as a call is lent them.
    pub fn new(list: &'a [Marker], count: usize, w: usize, h: usize, clearance: u16) -> LentMap<'a>
        ensures { lent_of result ≡ lent_map list.now count w h clearance }
    {
        LentMap {
            list,
            count,
            w,
            h,
            clearance,
        }
    }
}

// What is found of the map, the list and an id: its place, and whether it is in use. The id is
// looked for only where the list is well formed. Entering and clearing change the list, so it is no
// LentMap here.
fn seek(list: &[Marker], count: usize, w: usize, h: usize, id: u16) -> Result<Spot, Refusal>
    ensures { Seeks (lent_list list.now count w h) id result }
{
    if sheets::sized(w, h).is_none() {
        return Err(Refusal::BadSize);
    }
    if !records::well_formed(list, count, w, h) {
        return Err(Refusal::BadList);
    }
    Ok(records::find(list, count, id))
}

// Enters a marker, of any height. Hands back the new count, or the refusal: 1, 3, 4, 5 or 7.
pub fn bodkin_enter(
    list: &mut [Marker],
    count: usize,
    w: usize,
    h: usize,
    id: u16,
    p: Place,
    height: u16,
) -> Result<usize, Refusal>
    ensures { EnterCall (lent_list list.old count w h) id p.x p.y height list.new (counted result) }
{
    let spot = seek(list, count, w, h, id)?;
    judging::may_enter(spot.used, w, h, id, p, count, list.len())?;
    let m = judging::marker(id, p, height);
    Ok(records::enter_at(list, count, spot.place, m))
}

// Clears the marker with this id. Hands back the new count, or the refusal: 1, 3 or 6.
pub fn bodkin_clear(
    list: &mut [Marker],
    count: usize,
    w: usize,
    h: usize,
    id: u16,
) -> Result<usize, Refusal>
    ensures { ClearCall (lent_list list.old count w h) id list.new (counted result) }
{
    let spot = seek(list, count, w, h, id)?;
    judging::may_clear(spot.used)?;
    records::clear_at(list, count, spot.place);
    Ok(count - 1)
}

// Labels the map. Hands back the numbers of rocks' crossings, shut crossings and groups, or the
// refusal: 1, 2 or 3.
pub fn bodkin_label(lent: LentMap<'_>, labels: &mut [u8]) -> Result<Labelled, Refusal>
    ensures { LabelCall (lent_of lent.entry) labels.old labels.new (labelling result) }
{
    let map = prepare(lent, false, ORIGIN, ORIGIN, true, labels)?;
    Ok(labels::label(labels, map))
}

// Labels the map sweep by sweep. Hands back the number of sweeps that changed something, or the
// refusal: 1, 2 or 3.
pub fn bodkin_sweeps(lent: LentMap<'_>, labels: &mut [u8]) -> Result<usize, Refusal>
    ensures { SweepsCall (lent_of lent.entry) labels.old labels.new (swept result) }
{
    let map = prepare(lent, false, ORIGIN, ORIGIN, true, labels)?;
    Ok(sweeping::sweeps(labels, map))
}

// The four distances of p, east, south, west, north, or the refusal: 1, 2, 3 or 4.
pub fn bodkin_distances(lent: LentMap<'_>, p: Place, labels: &mut [u8]) -> Result<[u16; 4], Refusal>
    ensures { DistancesCall (lent_of lent.entry) p.x p.y labels.old labels.new (four result) }
{
    let first = prepare(lent, false, p, p, true, labels);
    askings::distances(labels, first, p)
}

// The distances of the whole map, into one lent sheet for each way; or the refusal, 1, 2 or 3.
pub fn bodkin_measure(
    lent: LentMap<'_>,
    labels: &mut [u8],
    east: &mut [u16],
    south: &mut [u16],
    west: &mut [u16],
    north: &mut [u16],
) -> Result<(), Refusal>
    ensures { MeasureCall (lent_of lent.entry) labels.old east.old south.old west.old north.old labels.new east.new south.new west.new north.new (told result) }
{
    let others = judging::four_fit(
        lent.w,
        lent.h,
        east.len(),
        south.len(),
        west.len(),
        north.len(),
    );
    let first = prepare(lent, false, ORIGIN, ORIGIN, others, labels);
    askings::measure(labels, first, east, south, west, north)
}

// Whether home is assured for p, or the refusal: 1, 2, 3, 4 or 8.
pub fn bodkin_assured(
    lent: LentMap<'_>,
    home: Place,
    p: Place,
    labels: &mut [u8],
) -> Result<bool, Refusal>
    ensures { AssuredCall (lent_of lent.entry) home.x home.y p.x p.y labels.old labels.new (assurance result) }
{
    let first = prepare(lent, false, home, p, true, labels);
    askings::assured(labels, first, home, p)
}

// Every permitted hop from p towards home, none at home, or the refusal: 1, 2, 3, 4, 8 or 11.
pub fn bodkin_hop(
    lent: LentMap<'_>,
    home: Place,
    p: Place,
    labels: &mut [u8],
) -> Result<Hops, Refusal>
    ensures { HopCall (lent_of lent.entry) home.x home.y p.x p.y labels.old labels.new (homeward_of result) }
{
    let first = prepare(lent, false, home, p, true, labels);
    askings::hop(labels, first, home, p)
}

// The crossings on at least one shortest drive between two places; or the refusal, 1, 2, 3, 4, 8 or
// 9.
pub fn bodkin_region(
    lent: LentMap<'_>,
    from: Place,
    to: Place,
    labels: &mut [u8],
    region: &mut [u8],
) -> Result<(), Refusal>
    ensures { RegionCall (lent_of lent.entry) from.x from.y to.x to.y labels.old region.old labels.new region.new (told result) }
{
    let others = judging::fits(lent.w, lent.h, region.len());
    let first = prepare(lent, false, from, to, others, labels);
    askings::region(labels, first, from, to, region)
}

// A shortest drive between two places, drawn from the lent state, at the front of the lent route.
// Hands back how many crossings it has, or the refusal: 1, 2, 3, 4, 8, 9 or 10.
pub fn bodkin_drive(
    lent: LentMap<'_>,
    from: Place,
    to: Place,
    labels: &mut [u8],
    region: &mut [u8],
    route: &mut [u16],
    state: &mut u32,
) -> Result<usize, Refusal>
    ensures { DriveCall (lent_of lent.entry) from.x from.y to.x to.y labels.old region.old route.old state.old labels.new region.new route.new state.new (drove result) }
{
    let others = judging::fits(lent.w, lent.h, region.len());
    let first = prepare(lent, false, from, to, others, labels);
    askings::drive(labels, first, from, to, region, route, state)
}

// Checks a drawn list of crossing numbers against the shortest drives between two places. Hands
// back why it is at fault and the position of the first crossing at fault, or that it is accepted;
// or the refusal: 1, 2, 3, 4 or 8.
pub fn bodkin_check(
    lent: LentMap<'_>,
    from: Place,
    to: Place,
    labels: &mut [u8],
    drawn: &[u16],
) -> Result<Result<(), Fault>, Refusal>
    ensures { CheckCall (lent_of lent.entry) from.x from.y to.x to.y labels.old drawn.now labels.new (checked result) }
{
    let first = prepare(lent, false, from, to, true, labels);
    askings::check(labels, first, from, to, drawn)
}

// Whether some column and some row between two places are open throughout the rectangle that they
// span. Hands back the place where the westmost such column and the southmost such row meet, if
// there are such; or the refusal: 1, 2, 3, 4 or 8.
pub fn bodkin_lines(
    lent: LentMap<'_>,
    from: Place,
    to: Place,
    labels: &mut [u8],
) -> Result<Option<Place>, Refusal>
    ensures { LinesCall (lent_of lent.entry) from.x from.y to.x to.y labels.old labels.new (crossing_lines result) }
{
    let first = prepare(lent, false, from, to, true, labels);
    askings::lines(labels, first, from, to)
}

// The drive between two places by way of the crossing where that column and that row meet, drawn
// from the lent state, at the front of the lent route. Hands back how many crossings it has, or the
// refusal: 1, 2, 3, 4, 8, 19 or 10, in this order.
pub fn bodkin_lines_drive(
    lent: LentMap<'_>,
    from: Place,
    to: Place,
    labels: &mut [u8],
    region: &mut [u8],
    route: &mut [u16],
    state: &mut u32,
) -> Result<usize, Refusal>
    ensures { LinesDriveCall (lent_of lent.entry) from.x from.y to.x to.y labels.old region.old route.old state.old labels.new region.new route.new state.new (drove result) }
{
    let others = judging::fits(lent.w, lent.h, region.len());
    let first = prepare(lent, false, from, to, others, labels);
    askings::lines_drive(labels, first, from, to, region, route, state)
}
