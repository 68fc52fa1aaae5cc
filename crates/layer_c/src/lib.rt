// The public calls as C has them: each is the layer's call of that name, with the same promise. A
// static library cannot be a library of other crates too, so the exports stand here by themselves.
#![tactic(auto)]

ghost use Rattle.calls.specs.Rules.{lent_map, lent_list};
ghost use Rattle.calls.specs.Calls.{EnterCall, ClearCall, LabelCall, DistancesCall, MeasureCall, AssuredCall, HopCall, RegionCall, DriveCall, ReadCall, WriteCall};
ghost use Rattle.calls.specs.CheckCall.{CheckCall};
ghost use Rattle.calls.specs.SweepsCall.{SweepsCall};
ghost use Rattle.calls.specs.LinesCall.{LinesCall, LinesDriveCall};
ghost use Rattle.calls.specs.PictureCalls.{WriteSheetCall, ReadSheetCall};

use calls::{
    Assurance, Checked, Counted, CrossingLines, Drove, Four, Homeward, Labelling, ReadMap,
    SheetRead, SheetWritten, Swept, WroteMap,
};
use field::{Marker, Place};
use layer::LentMap;

// Enters a marker, of any height. Hands back the new count, or the refusal: 1, 3, 4, 5 or 7.
#[unsafe(no_mangle)]
pub extern "C" fn bodkin_enter(
    list: &mut [Marker],
    count: usize,
    w: usize,
    h: usize,
    id: u16,
    x: usize,
    y: usize,
    height: u16,
) -> Counted
    ensures { EnterCall (lent_list list.old count w h) id x y height list.new result }
{
    let p = Place { x, y };
    layer::bodkin_enter(list, count, w, h, id, p, height).into()
}

// Clears the marker with this id. Hands back the new count, or the refusal: 1, 3 or 6.
#[unsafe(no_mangle)]
pub extern "C" fn bodkin_clear(
    list: &mut [Marker],
    count: usize,
    w: usize,
    h: usize,
    id: u16,
) -> Counted
    ensures { ClearCall (lent_list list.old count w h) id list.new result }
{
    layer::bodkin_clear(list, count, w, h, id).into()
}

// Labels the map. Hands back the numbers of rocks' crossings, shut crossings and groups, or the
// refusal: 1, 2 or 3.
#[unsafe(no_mangle)]
pub extern "C" fn bodkin_label(
    list: &[Marker],
    count: usize,
    w: usize,
    h: usize,
    clearance: u16,
    labels: &mut [u8],
) -> Labelling
    ensures { LabelCall (lent_map list.now count w h clearance) labels.old labels.new result }
{
    let lent = LentMap::new(list, count, w, h, clearance);
    layer::bodkin_label(lent, labels).into()
}

// Labels the map sweep by sweep. Hands back the number of sweeps that changed something, or the
// refusal: 1, 2 or 3.
#[unsafe(no_mangle)]
pub extern "C" fn bodkin_sweeps(
    list: &[Marker],
    count: usize,
    w: usize,
    h: usize,
    clearance: u16,
    labels: &mut [u8],
) -> Swept
    ensures { SweepsCall (lent_map list.now count w h clearance) labels.old labels.new result }
{
    let lent = LentMap::new(list, count, w, h, clearance);
    layer::bodkin_sweeps(lent, labels).into()
}

// The four distances of (x, y), east, south, west, north, or the refusal: 1, 2, 3 or 4.
#[unsafe(no_mangle)]
pub extern "C" fn bodkin_distances(
    list: &[Marker],
    count: usize,
    w: usize,
    h: usize,
    clearance: u16,
    x: usize,
    y: usize,
    labels: &mut [u8],
) -> Four
    ensures { DistancesCall (lent_map list.now count w h clearance) x y labels.old labels.new result }
{
    let lent = LentMap::new(list, count, w, h, clearance);
    let p = Place { x, y };
    layer::bodkin_distances(lent, p, labels).into()
}

// The distances of the whole map, into one lent sheet for each way. Answers the refusal, 1, 2 or 3,
// or 0.
#[unsafe(no_mangle)]
pub extern "C" fn bodkin_measure(
    list: &[Marker],
    count: usize,
    w: usize,
    h: usize,
    clearance: u16,
    labels: &mut [u8],
    east: &mut [u16],
    south: &mut [u16],
    west: &mut [u16],
    north: &mut [u16],
) -> u8
    ensures { MeasureCall (lent_map list.now count w h clearance) labels.old east.old south.old west.old north.old labels.new east.new south.new west.new north.new result }
{
    let lent = LentMap::new(list, count, w, h, clearance);
    calls::number(layer::bodkin_measure(lent, labels, east, south, west, north))
}

// Whether home (hx, hy) is assured for (x, y), or the refusal: 1, 2, 3, 4 or 8.
#[unsafe(no_mangle)]
pub extern "C" fn bodkin_assured(
    list: &[Marker],
    count: usize,
    w: usize,
    h: usize,
    clearance: u16,
    hx: usize,
    hy: usize,
    x: usize,
    y: usize,
    labels: &mut [u8],
) -> Assurance
    ensures { AssuredCall (lent_map list.now count w h clearance) hx hy x y labels.old labels.new result }
{
    let lent = LentMap::new(list, count, w, h, clearance);
    let home = Place { x: hx, y: hy };
    let p = Place { x, y };
    layer::bodkin_assured(lent, home, p, labels).into()
}

// Every permitted hop from (x, y) towards home (hx, hy), none at home, or the refusal: 1, 2, 3, 4,
// 8 or 11.
#[unsafe(no_mangle)]
pub extern "C" fn bodkin_hop(
    list: &[Marker],
    count: usize,
    w: usize,
    h: usize,
    clearance: u16,
    hx: usize,
    hy: usize,
    x: usize,
    y: usize,
    labels: &mut [u8],
) -> Homeward
    ensures { HopCall (lent_map list.now count w h clearance) hx hy x y labels.old labels.new result }
{
    let lent = LentMap::new(list, count, w, h, clearance);
    let home = Place { x: hx, y: hy };
    let p = Place { x, y };
    layer::bodkin_hop(lent, home, p, labels).into()
}

// The crossings on at least one shortest drive from (sx, sy) to (dx, dy). Answers the refusal, 1,
// 2, 3, 4, 8 or 9, or 0.
#[unsafe(no_mangle)]
pub extern "C" fn bodkin_region(
    list: &[Marker],
    count: usize,
    w: usize,
    h: usize,
    clearance: u16,
    sx: usize,
    sy: usize,
    dx: usize,
    dy: usize,
    labels: &mut [u8],
    region: &mut [u8],
) -> u8
    ensures { RegionCall (lent_map list.now count w h clearance) sx sy dx dy labels.old region.old labels.new region.new result }
{
    let lent = LentMap::new(list, count, w, h, clearance);
    let from = Place { x: sx, y: sy };
    let to = Place { x: dx, y: dy };
    calls::number(layer::bodkin_region(lent, from, to, labels, region))
}

// A shortest drive from (sx, sy) to (dx, dy), drawn from the lent state, at the front of the lent
// route. Hands back how many crossings it has, or the refusal: 1, 2, 3, 4, 8, 9 or 10.
#[unsafe(no_mangle)]
pub extern "C" fn bodkin_drive(
    list: &[Marker],
    count: usize,
    w: usize,
    h: usize,
    clearance: u16,
    sx: usize,
    sy: usize,
    dx: usize,
    dy: usize,
    labels: &mut [u8],
    region: &mut [u8],
    route: &mut [u16],
    state: &mut u32,
) -> Drove
    ensures { DriveCall (lent_map list.now count w h clearance) sx sy dx dy labels.old region.old route.old state.old labels.new region.new route.new state.new result }
{
    let lent = LentMap::new(list, count, w, h, clearance);
    let from = Place { x: sx, y: sy };
    let to = Place { x: dx, y: dy };
    layer::bodkin_drive(lent, from, to, labels, region, route, state).into()
}

// Checks a drawn list of crossing numbers against the shortest drives from (sx, sy) to (dx, dy).
// Hands back why it is at fault and the position of the first crossing at fault, both 0 where it is
// accepted, or the refusal: 1, 2, 3, 4 or 8.
#[unsafe(no_mangle)]
pub extern "C" fn bodkin_check(
    list: &[Marker],
    count: usize,
    w: usize,
    h: usize,
    clearance: u16,
    sx: usize,
    sy: usize,
    dx: usize,
    dy: usize,
    labels: &mut [u8],
    drawn: &[u16],
) -> Checked
    ensures { CheckCall (lent_map list.now count w h clearance) sx sy dx dy labels.old drawn.now labels.new result }
{
    let lent = LentMap::new(list, count, w, h, clearance);
    let from = Place { x: sx, y: sy };
    let to = Place { x: dx, y: dy };
    layer::bodkin_check(lent, from, to, labels, drawn).into()
}

// Whether some column and some row between (sx, sy) and (dx, dy) are open throughout the rectangle
// that they span. Hands back the westmost such column and the southmost such row, zeros beside a
// no, or the refusal: 1, 2, 3, 4 or 8.
#[unsafe(no_mangle)]
pub extern "C" fn bodkin_lines(
    list: &[Marker],
    count: usize,
    w: usize,
    h: usize,
    clearance: u16,
    sx: usize,
    sy: usize,
    dx: usize,
    dy: usize,
    labels: &mut [u8],
) -> CrossingLines
    ensures { LinesCall (lent_map list.now count w h clearance) sx sy dx dy labels.old labels.new result }
{
    let lent = LentMap::new(list, count, w, h, clearance);
    let from = Place { x: sx, y: sy };
    let to = Place { x: dx, y: dy };
    layer::bodkin_lines(lent, from, to, labels).into()
}

// The drive from (sx, sy) to (dx, dy) by way of the crossing where that column and that row meet,
// drawn from the lent state, at the front of the lent route. Hands back how many crossings it has,
// or the refusal: 1, 2, 3, 4, 8, 19 or 10, in this order.
#[unsafe(no_mangle)]
pub extern "C" fn bodkin_lines_drive(
    list: &[Marker],
    count: usize,
    w: usize,
    h: usize,
    clearance: u16,
    sx: usize,
    sy: usize,
    dx: usize,
    dy: usize,
    labels: &mut [u8],
    region: &mut [u8],
    route: &mut [u16],
    state: &mut u32,
) -> Drove
    ensures { LinesDriveCall (lent_map list.now count w h clearance) sx sy dx dy labels.old region.old route.old state.old labels.new region.new route.new state.new result }
{
    let lent = LentMap::new(list, count, w, h, clearance);
    let from = Place { x: sx, y: sy };
    let to = Place { x: dx, y: dy };
    layer::bodkin_lines_drive(lent, from, to, labels, region, route, state).into()
}

// Writes the list as a map file, P4: the rocks of a cart of this clearance. Hands back how many
// bytes were written, or the refusal: 1, 3, 16 or 17. Bytes past the end stay, and a refusal
// changes none. 16 looks at all markers, low ones included: so these are stamped first, and the
// rocks over them.
#[unsafe(no_mangle)]
pub extern "C" fn bodkin_write(
    list: &[Marker],
    count: usize,
    w: usize,
    h: usize,
    clearance: u16,
    out: &mut [u8],
) -> WroteMap
    ensures { WriteCall (lent_map list.now count w h clearance) out.old out.new result }
{
    let lent = LentMap::new(list, count, w, h, clearance);
    layer::files::bodkin_write(lent, out).into()
}

// Reads a map file. Its rocks become markers with ids 1, 2, 3 and on, in raster order, in the first
// slots; other slots stay. Hands back width, height and count, or the refusal: 12, 13, 1, 14, 15 or
// 7, which changes no slot.
#[unsafe(no_mangle)]
pub extern "C" fn bodkin_read(src: &[u8], list: &mut [Marker]) -> ReadMap
    ensures { ReadCall src.now list.old list.new result }
{
    layer::files::bodkin_read(src, list).into()
}

// Writes a sheet as a picture, P5, two bytes a crossing. Hands back the number of bytes written, or
// the refusal: 1, 2 or 17. Bytes past the end stay, and a refusal changes none.
#[unsafe(no_mangle)]
pub extern "C" fn bodkin_write_sheet(
    sheet: &[u16],
    w: usize,
    h: usize,
    out: &mut [u8],
) -> SheetWritten
    ensures { WriteSheetCall sheet.now w h out.old out.new result }
{
    layer::pictures::bodkin_write_sheet(sheet, w, h, out).into()
}

// Reads a picture into a sheet of its size, by crossing number: one of two bytes a crossing, or an
// old one of one byte. Hands back width and height, or the refusal: 12, 13, 1, 18, 2, 14 or 15,
// which changes no number of the sheet.
#[unsafe(no_mangle)]
pub extern "C" fn bodkin_read_sheet(src: &[u8], sheet: &mut [u16]) -> SheetRead
    ensures { ReadSheetCall src.now sheet.old sheet.new result }
{
    layer::pictures::bodkin_read_sheet(src, sheet).into()
}
