// The caller's list of marker records, lent with a count of those in use. Every function here looks
// along the list itself; what it thinks of one record stands in a function on the record by value.
#![tactic(auto)]

ghost use Rattle.std.specs.Prelude.{◌≡◌, true, ◌↔◌, ◌*◌, ◌<◌, ◌≤◌, length};
ghost use Rattle.field.specs.Map.{On};
ghost use Rattle.field.specs.Labels.{Rock};
ghost use Rattle.field.specs.Morning.{RocksShown};
ghost use Rattle.markers.specs.List.{WellFormed, InUse, Cleared, slot, in_use_of};
ghost use Rattle.markers.specs.Promise.{Rising};
ghost use Rattle.records.specs.Promise.{Belongs, SpotOf, MayEnter, Enters, MayClear, Clears, MayStamp, StampedWith};
ghost use Rattle.records.specs.Steps.{Few, Follows, Counts, Marks, Passes};

use field::{MOST_MARKERS, Marker, Place, Size};
use sheets::{Sheet, number_of};

// Whether a count is within its limits, for a list lent of this length.
#[tactic(auto, using(field::specs::Limits::most_markers_is))]
fn few(count: usize, lent: usize) -> bool
    ensures { (result ≡ true) ↔ Few count lent }
{
    count <= MOST_MARKERS && count <= lent
}

// The crossing on which a marker stands.
fn crossing(m: Marker) -> Place
    ensures { result ≡ record { x = m.x; y = m.y } }
{
    Place {
        x: usize::from(m.x),
        y: usize::from(m.y),
    }
}

// Whether a marker may come next after one with the id `last`, or first after 0: a higher id, and a
// crossing of the map.
fn follows(last: u16, m: Marker, w: usize, h: usize) -> bool
    ensures { (result ≡ true) ↔ Follows last m w h }
{
    last < m.id && usize::from(m.x) < w && usize::from(m.y) < h
}

// Whether the list is well formed on a map of this width and height: count within its limits, ids
// from 1 rising, every marker on the map. The answer is read off how many markers were passed, not
// handed back from within the loop: so a compiler makes one jump of each test, and no value of it.
pub fn well_formed(list: &[Marker], count: usize, w: usize, h: usize) -> bool
    ensures { (result ≡ true) ↔ WellFormed w h list.now count }
{
    if !few(count, list.len()) {
        return false;
    }
    let mut last: u16 = 0;
    let mut passed: usize = 0;
    for m in &list[..count] {
        if !follows(last, *m, w, h) {
            break;
        }
        last = m.id;
        passed += 1;
    }
    passed == count
}

// Where the id stands or belongs.
pub fn place_of(list: &[Marker], count: usize, id: u16) -> usize
    requires { Rising list.now count }
    ensures { Belongs list.now count id result }
{
    list[..count].partition_point(|m| m.id < id)
}

// What is found of an id: where it stands or belongs, and whether it is in use.
#[derive(Clone, Copy, Debug, PartialEq, Eq)]
pub struct Spot {
    pub place: usize,
    pub used: bool,
}

// Looks for an id: it is in use where the marker that stands in its place has it.
pub fn find(list: &[Marker], count: usize, id: u16) -> Spot
    requires { Rising list.now count }
    ensures { SpotOf list.now count id result }
{
    let place = place_of(list, count, id);
    let used = place < count && list[place].id == id;
    Spot { place, used }
}

// Whether an id is in use.
pub fn in_use(list: &[Marker], count: usize, id: u16) -> bool
    requires { Rising list.now count }
    ensures { (result ≡ true) ↔ InUse list.now count id }
{
    find(list, count, id).used
}

// Enters a marker at this place, which is its place by id: so it need not be looked for again.
// Hands back the new count.
pub fn enter_at(list: &mut [Marker], count: usize, place: usize, marker: Marker) -> usize
    requires may { MayEnter list.old count marker }
    requires belongs { Belongs list.old count marker.id place }
    ensures { Enters list.old count marker list.new result }
{
    for k in (place..count).rev() {
        list[k + 1] = list[k];
    }
    list[place] = marker;
    count + 1
}

// Enters a marker at its place by id. Hands back the new count.
pub fn enter(list: &mut [Marker], count: usize, m: Marker) -> usize
    requires { MayEnter list.old count m }
    ensures { Enters list.old count m list.new result }
{
    let place = place_of(list, count, m.id);
    enter_at(list, count, place, m)
}

// Clears the marker at this place: those behind it move down by one, and the slot so freed is set
// to zeros.
pub fn clear_at(list: &mut [Marker], count: usize, place: usize)
    requires below { place < count }
    requires lent { count ≤ length list.old }
    ensures { Cleared list.old count (slot list.old place).id list.new }
{
    list.copy_within(place + 1..count, place);
    list[count - 1] = Marker {
        id: 0,
        x: 0,
        y: 0,
        height: 0,
    };
}

// Clears the marker with this id. Hands back the new count.
pub fn clear(list: &mut [Marker], count: usize, id: u16) -> usize
    requires { MayClear list.old count id }
    ensures { Clears list.old count id list.new result }
{
    let place = place_of(list, count, id);
    clear_at(list, count, place);
    count - 1
}

// Whether a marker is stamped: it is higher than the clearance, or low ones are included.
fn counts(m: Marker, clearance: u16, low: bool) -> bool
    ensures { (result ≡ true) ↔ Counts clearance low m }
{
    low || clearance < m.height
}

// Puts a rock on the marker's crossing where the marker is stamped. Where it is not, the crossing
// keeps what it has: another marker may have made it a rock.
fn mark(sheet: &mut [u8], map: Size, m: Marker, clearance: u16, low: bool)
    requires on { On map.w map.h m.x m.y }
    requires size { length sheet.old ≡ map.h * map.w }
    ensures { Marks clearance low m map.w sheet.old sheet.new }
{
    if counts(m, clearance, low) {
        sheet[number_of(map, crossing(m))] = 1;
    }
}

// Stamps the rocks of a cart of this clearance: 1 on each crossing with at least one marker that is
// higher, 0 elsewhere. With `low`, low ones are included: 1 on each crossing with a marker.
pub fn stamp(list: &[Marker], count: usize, map: Size, clearance: u16, low: bool, sheet: &mut [u8])
    requires { MayStamp map.w map.h list.now count sheet.old }
    ensures { StampedWith map.w map.h clearance low list.now count sheet.new }
{
    sheet.fill(0);
    for m in &list[..count] {
        mark(sheet, map, *m, clearance, low);
    }
}

// Whether the sheet may be taken as far as one marker goes: one that stops a cart of this clearance
// has its crossing shown closed, 1 or 2; any other is passed, whatever the sheet shows.
fn shows(s: Sheet<'_>, m: Marker, clearance: u16) -> bool
    requires { On s.map.w s.map.h m.x m.y }
    ensures { (result ≡ true) ↔ Passes clearance s.entry.map.w s.entry.cells.now m }
{
    !counts(m, clearance, false) || matches!(s.at(crossing(m)), 1 | 2)
}

// Whether the sheet shows every rock of a cart of this clearance closed. The sheet is only read.
pub fn shown(list: &[Marker], count: usize, clearance: u16, s: Sheet<'_>) -> bool
    requires { WellFormed s.map.w s.map.h list.now count }
    ensures { (result ≡ true) ↔ RocksShown (Rock clearance (in_use_of list.now count)) s.entry.map.w s.entry.map.h s.entry.cells.now }
{
    list[..count].iter().all(|m| shows(s, *m, clearance))
}
