// The second part of each asking. `first` is what the first part of the call told: the map's size,
// where the rocks are stamped on the lent label sheet, or its refusal. A refusal is handed on with
// all that is lent as it was, and then nothing is asked of the sheets and the places. Labelling by
// itself, and sweep by sweep, is `labels::label` and `sweeping::sweeps`.
#![tactic(auto)]

mod over; // over.rt: what each asking comes to over a map

ghost use Rattle.std.specs.Prelude.{◌≡◌, ◌*◌, length, IfOk, IsOkAnd, ⊤};
ghost use Rattle.askings.specs.Promise.{MayAsk, MayAskTwo, MayMeasure, MayDrive, AfterFirst};
ghost use Rattle.askings.specs.Promise.{DistancesRest, MeasureRest, AssuredRest, HopRest, RegionRest, DriveRest, CheckRest, LinesRest, LinesDriveRest};
ghost use Rattle.askings.specs.Morning.{MayHopBy, HopByRest};

use field::{Fault, Hops, Place, Refusal, Size};
use sheets::Sheet;

// The four distances of p.
pub fn distances(
    labels: &mut [u8],
    first: Result<Size, Refusal>,
    p: Place,
) -> Result<[u16; 4], Refusal>
    requires { IfOk first (λ map. MayAsk map.w map.h p.x p.y labels.old) }
    ensures { AfterFirst first (λ map. IsOkAnd result (λ four. DistancesRest map.w map.h p.x p.y labels.old labels.new four)) (labels.new ≡ labels.old) result }
{
    Ok(over::distances(labels, first?, p))
}

// The distances of the whole map, one lent sheet for each way.
pub fn measure(
    labels: &mut [u8],
    first: Result<Size, Refusal>,
    east: &mut [u16],
    south: &mut [u16],
    west: &mut [u16],
    north: &mut [u16],
) -> Result<(), Refusal>
    requires { IfOk first (λ map. MayMeasure map.w map.h labels.old east.old south.old west.old north.old) }
    ensures { AfterFirst first (λ map. IsOkAnd result (λ _. MeasureRest map.w map.h labels.old labels.new east.new south.new west.new north.new)) ((labels.new ≡ labels.old) × (east.new ≡ east.old) × (south.new ≡ south.old) × (west.new ≡ west.old) × (north.new ≡ north.old)) result }
{
    over::measure(labels, first?, east, south, west, north);
    Ok(())
}

// Whether home is assured for p. With an end closed: refusal 8.
pub fn assured(
    labels: &mut [u8],
    first: Result<Size, Refusal>,
    home: Place,
    p: Place,
) -> Result<bool, Refusal>
    requires { IfOk first (λ map. MayAskTwo map.w map.h home.x home.y p.x p.y labels.old) }
    ensures { AfterFirst first (λ map. AssuredRest map.w map.h home.x home.y p.x p.y labels.old labels.new result) (labels.new ≡ labels.old) result }
{
    over::assured(labels, first?, home, p)
}

// The permitted hops from p towards home. With an end closed: refusal 8; both open and home not
// assured: 11.
pub fn hop(
    labels: &mut [u8],
    first: Result<Size, Refusal>,
    home: Place,
    p: Place,
) -> Result<Hops, Refusal>
    requires { IfOk first (λ map. MayAskTwo map.w map.h home.x home.y p.x p.y labels.old) }
    ensures { AfterFirst first (λ map. HopRest map.w map.h home.x home.y p.x p.y labels.old labels.new result) (labels.new ≡ labels.old) result }
{
    over::hop(labels, first?, home, p)
}

// The permitted hops from p towards home by a morning sheet, which is only read. Here the first
// part's refusal may be 20 too, where the sheet shows a rock open. A sheet that has a fault by
// itself: refusal 20; by a sheet taken, as for a hop, 8 and 11.
pub fn hop_by(
    first: Result<Size, Refusal>,
    sheet: &[u8],
    home: Place,
    p: Place,
) -> Result<Hops, Refusal>
    requires { IfOk first (λ map. (length sheet.now ≡ map.h * map.w) × MayHopBy map.w map.h home.x home.y p.x p.y) }
    ensures { AfterFirst first (λ map. HopByRest map.w map.h home.x home.y p.x p.y sheet.now result) ⊤ result }
{
    over::hop_by(
        Sheet {
            cells: sheet,
            map: first?,
        },
        home,
        p,
    )
}

// The region of shortest drives between two places, into a lent sheet. With an end closed: refusal
// 8, and the sheet stays; with no shortest drive: 9, all 0.
pub fn region(
    labels: &mut [u8],
    first: Result<Size, Refusal>,
    from: Place,
    to: Place,
    region: &mut [u8],
) -> Result<(), Refusal>
    requires { IfOk first (λ map. MayDrive map.w map.h from.x from.y to.x to.y labels.old region.old) }
    ensures { AfterFirst first (λ map. RegionRest map.w map.h from.x from.y to.x to.y labels.old region.old labels.new region.new result) ((labels.new ≡ labels.old) × (region.new ≡ region.old)) result }
{
    over::region(labels, first?, from, to, region)
}

// The chooser's drive between two places in the lent state, at the front of a lent route; the lent
// sheet holds the region. Hands back how many crossings are filled. The state is written only where
// there is a drive and the route holds it.
pub fn drive(
    labels: &mut [u8],
    first: Result<Size, Refusal>,
    from: Place,
    to: Place,
    region: &mut [u8],
    route: &mut [u16],
    state: &mut u32,
) -> Result<usize, Refusal>
    requires { IfOk first (λ map. MayDrive map.w map.h from.x from.y to.x to.y labels.old region.old) }
    ensures { AfterFirst first (λ map. DriveRest map.w map.h from.x from.y to.x to.y labels.old region.old route.old state.old labels.new region.new route.new state.new result) ((labels.new ≡ labels.old) × (region.new ≡ region.old) × (route.new ≡ route.old) × (state.new ≡ state.old)) result }
{
    over::drive(labels, first?, from, to, region, route, state)
}

// The check of a drawn list against the shortest drives between two places. With an end closed:
// refusal 8.
pub fn check(
    labels: &mut [u8],
    first: Result<Size, Refusal>,
    from: Place,
    to: Place,
    drawn: &[u16],
) -> Result<Result<(), Fault>, Refusal>
    requires { IfOk first (λ map. MayAskTwo map.w map.h from.x from.y to.x to.y labels.old) }
    ensures { AfterFirst first (λ map. CheckRest map.w map.h from.x from.y to.x to.y labels.old drawn.now labels.new result) (labels.new ≡ labels.old) result }
{
    over::check(labels, first?, from, to, drawn)
}

// Whether two places have crossing lines, and where these meet: in the westmost open column and in
// the southmost open row. With an end closed: refusal 8.
pub fn lines(
    labels: &mut [u8],
    first: Result<Size, Refusal>,
    a: Place,
    b: Place,
) -> Result<Option<Place>, Refusal>
    requires { IfOk first (λ map. MayAskTwo map.w map.h a.x a.y b.x b.y labels.old) }
    ensures { AfterFirst first (λ map. LinesRest map.w map.h a.x a.y b.x b.y labels.old labels.new result) (labels.new ≡ labels.old) result }
{
    over::lines(labels, first?, a, b)
}

// The drive between two places by way of the crossing where these lines meet, in the lent state, at
// the front of a lent route; the lent sheet holds the region of the two ends. With an end closed:
// refusal 8; without lines: 19, and then only the labels are written.
pub fn lines_drive(
    labels: &mut [u8],
    first: Result<Size, Refusal>,
    from: Place,
    to: Place,
    region: &mut [u8],
    route: &mut [u16],
    state: &mut u32,
) -> Result<usize, Refusal>
    requires { IfOk first (λ map. MayDrive map.w map.h from.x from.y to.x to.y labels.old region.old) }
    ensures { AfterFirst first (λ map. LinesDriveRest map.w map.h from.x from.y to.x to.y labels.old region.old route.old state.old labels.new region.new route.new state.new result) ((labels.new ≡ labels.old) × (region.new ≡ region.old) × (route.new ≡ route.old) × (state.new ≡ state.old)) result }
{
    over::lines_drive(labels, first?, from, to, region, route, state)
}
