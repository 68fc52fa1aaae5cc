// What each asking comes to over a map, once the rocks are stamped on the lent label sheet. The
// sheet is labelled first, and then the question is answered over its marks: whatever is not 0 on
// it is closed. The hop by a morning sheet labels nothing: its sheet is looked at, and not written
// to.
ghost use Rattle.field.specs.Workings.Sheet.{Marked};
ghost use Rattle.distances.specs.Promise.{AskedHome};
ghost use Rattle.askings.specs.Promise.{MayAsk, MayAskTwo, MayMeasure, MayDrive, MayGoHome, EndsTold, HopAsked};
ghost use Rattle.askings.specs.Promise.{DistancesRest, MeasureRest, AssuredRest, HopRest, RegionRest, DriveRest, CheckRest, LinesRest, LinesDriveRest};
ghost use Rattle.askings.specs.Morning.{MayHopBy, HopByRest};

use field::{Fault, Hops, Place, Refusal, Size};
use sheets::Sheet;

// The four distances of p.
pub fn distances(labels: &mut [u8], map: Size, p: Place) -> [u16; 4]
    requires { MayAsk map.w map.h p.x p.y labels.old }
    ensures { DistancesRest map.w map.h p.x p.y labels.old labels.new result }
{
    labels::label(labels, map);
    distances::distances(Sheet { cells: labels, map }, p)
}

// The distances of the whole map, one lent sheet for each way.
pub fn measure(
    labels: &mut [u8],
    map: Size,
    east: &mut [u16],
    south: &mut [u16],
    west: &mut [u16],
    north: &mut [u16],
)
    requires { MayMeasure map.w map.h labels.old east.old south.old west.old north.old }
    ensures { MeasureRest map.w map.h labels.old labels.new east.new south.new west.new north.new }
{
    labels::label(labels, map);
    measures::measure(Sheet { cells: labels, map }, east, south, west, north);
}

// Refusal 8 where one of two ends is closed.
fn open_ends(s: Sheet<'_>, a: Place, b: Place) -> Result<(), Refusal>
    requires { AskedHome s.map.w s.map.h a.x a.y b.x b.y }
    ensures { EndsTold (Marked s.entry.cells.now s.entry.map.w s.entry.map.h) a.x a.y b.x b.y result }
{
    if s.at(a) != 0 || s.at(b) != 0 {
        return Err(Refusal::EndClosed);
    }
    Ok(())
}

// Whether home is assured for p. With an end closed: refusal 8.
pub fn assured(labels: &mut [u8], map: Size, home: Place, p: Place) -> Result<bool, Refusal>
    requires { MayAskTwo map.w map.h home.x home.y p.x p.y labels.old }
    ensures { AssuredRest map.w map.h home.x home.y p.x p.y labels.old labels.new result }
{
    labels::label(labels, map);
    let s = Sheet { cells: labels, map };
    open_ends(s, home, p)?;
    Ok(distances::assured(s, home, p))
}

// The permitted hops from p towards home over a sheet's marks. With an end closed: refusal 8; both
// open and home not assured: 11.
fn hops_over(sheet: Sheet<'_>, home: Place, p: Place) -> Result<Hops, Refusal>
    requires { MayGoHome sheet.map.w sheet.map.h (Marked sheet.cells.now sheet.map.w sheet.map.h) home.x home.y p.x p.y }
    ensures { HopAsked sheet.entry.map.w sheet.entry.map.h (Marked sheet.entry.cells.now sheet.entry.map.w sheet.entry.map.h) home.x home.y p.x p.y result }
{
    open_ends(sheet, home, p)?;
    if !distances::assured(sheet, home, p) {
        return Err(Refusal::NotAssured);
    }
    Ok(hops::hop(sheet, home, p))
}

// The permitted hops from p towards home. With an end closed: refusal 8; both open and home not
// assured: 11.
pub fn hop(labels: &mut [u8], map: Size, home: Place, p: Place) -> Result<Hops, Refusal>
    requires { MayAskTwo map.w map.h home.x home.y p.x p.y labels.old }
    ensures { HopRest map.w map.h home.x home.y p.x p.y labels.old labels.new result }
{
    labels::label(labels, map);
    hops_over(Sheet { cells: labels, map }, home, p)
}

// The permitted hops from p towards home by a morning sheet, which is only read. A sheet that has a
// fault by itself: refusal 20; by a sheet taken, as for a hop, 8 and 11.
pub fn hop_by(sheet: Sheet<'_>, home: Place, p: Place) -> Result<Hops, Refusal>
    requires { MayHopBy sheet.map.w sheet.map.h home.x home.y p.x p.y }
    ensures { HopByRest sheet.entry.map.w sheet.entry.map.h home.x home.y p.x p.y sheet.entry.cells.now result }
{
    if !taking::steady(sheet) {
        return Err(Refusal::NotTaken);
    }
    hops_over(sheet, home, p)
}

// The region of shortest drives between two places, into a lent sheet. With an end closed: refusal
// 8, and the sheet stays; with no shortest drive: 9, all 0.
pub fn region(
    labels: &mut [u8],
    map: Size,
    from: Place,
    to: Place,
    region: &mut [u8],
) -> Result<(), Refusal>
    requires { MayDrive map.w map.h from.x from.y to.x to.y labels.old region.old }
    ensures { RegionRest map.w map.h from.x from.y to.x to.y labels.old region.old labels.new region.new result }
{
    labels::label(labels, map);
    regions::region(Sheet { cells: labels, map }, from, to, region)
}

// The chooser's drive between two places in the lent state, at the front of a lent route; the lent
// sheet holds the region. Hands back how many crossings are filled. The state is written only where
// there is a drive and the route holds it.
pub fn drive(
    labels: &mut [u8],
    map: Size,
    from: Place,
    to: Place,
    region: &mut [u8],
    route: &mut [u16],
    state: &mut u32,
) -> Result<usize, Refusal>
    requires { MayDrive map.w map.h from.x from.y to.x to.y labels.old region.old }
    ensures { DriveRest map.w map.h from.x from.y to.x to.y labels.old region.old route.old state.old labels.new region.new route.new state.new result }
{
    labels::label(labels, map);
    drives::fill(Sheet { cells: labels, map }, from, to, region, route, state)
}

// The check of a drawn list against the shortest drives between two places. With an end closed:
// refusal 8.
pub fn check(
    labels: &mut [u8],
    map: Size,
    from: Place,
    to: Place,
    drawn: &[u16],
) -> Result<Result<(), Fault>, Refusal>
    requires { MayAskTwo map.w map.h from.x from.y to.x to.y labels.old }
    ensures { CheckRest map.w map.h from.x from.y to.x to.y labels.old drawn.now labels.new result }
{
    labels::label(labels, map);
    let sheet = Sheet { cells: labels, map };
    open_ends(sheet, from, to)?;
    Ok(checks::check(sheet, from, to, drawn))
}

// Whether two places have crossing lines, and where these meet: in the westmost open column and in
// the southmost open row. With an end closed: refusal 8.
pub fn lines(labels: &mut [u8], map: Size, a: Place, b: Place) -> Result<Option<Place>, Refusal>
    requires { MayAskTwo map.w map.h a.x a.y b.x b.y labels.old }
    ensures { LinesRest map.w map.h a.x a.y b.x b.y labels.old labels.new result }
{
    labels::label(labels, map);
    let s = Sheet { cells: labels, map };
    open_ends(s, a, b)?;
    Ok(meetings::lines(s, a, b))
}

// The drive between two places by way of the crossing where these lines meet, in the lent state, at
// the front of a lent route; the lent sheet holds the region of the two ends. With an end closed:
// refusal 8; without lines: 19, and then only the labels are written.
pub fn lines_drive(
    labels: &mut [u8],
    map: Size,
    from: Place,
    to: Place,
    region: &mut [u8],
    route: &mut [u16],
    state: &mut u32,
) -> Result<usize, Refusal>
    requires { MayDrive map.w map.h from.x from.y to.x to.y labels.old region.old }
    ensures { LinesDriveRest map.w map.h from.x from.y to.x to.y labels.old region.old route.old state.old labels.new region.new route.new state.new result }
{
    labels::label(labels, map);
    let s = Sheet { cells: labels, map };
    open_ends(s, from, to)?;
    meetings::join(s, from, to, region, route, state)
}
