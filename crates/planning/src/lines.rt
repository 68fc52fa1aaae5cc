// The lines of one map: the map is labelled once, then a line is written for each corner as depot,
// and the sums go along.
ghost use Rattle.std.specs.Prelude.{◌≡◌, ◌+◌, ◌*◌, ◌≤◌, length, take};
ghost use Rattle.field.specs.Labels.{Closed};
ghost use Rattle.field.specs.Depots.{depot_x, depot_y, HowPlaced};
ghost use Rattle.field.specs.Workings.Sheet.{Draws, Marked};
ghost use Rattle.mapfile.specs.File.{FileRock};
ghost use Rattle.printing.specs.Parts.{Puts};
ghost use Rattle.planning.specs.Steps.{line_room, step_room};
ghost use Rattle.planning.specs.Parts.{FourNumbers, Addable, DepotTold, AllTold, MayStamp, MayTellMap, MapTold};

use field::{Depot, MOST_CROSSINGS, Placing, Size};
use printing::put_line;
use sheets::Sheet;

// "each corner as depot (southwest, southeast, northwest, northeast)"
const CORNERS: [Depot; 4] = [
    Depot::SouthWest,
    Depot::SouthEast,
    Depot::NorthWest,
    Depot::NorthEast,
];

// Where the text so far ends in the output, and the sums with its lines.
#[derive(Clone, Copy, Debug, Default, PartialEq, Eq)]
pub struct Told {
    pub end: usize,
    pub sums: Placing,
}

// Writes a line from the place `at` on: four numbers with a space between. Hands back where it
// ends.
pub fn put_four(out: &mut [u8], at: usize, p: Placing) -> usize
    requires { at + line_room ≤ length out.old }
    ensures { Puts (FourNumbers p) out.old at out.new result }
{
    let numbers = [p.opens, p.assured, p.driven, p.stranded];
    // `as`: both types have 64 bits, and no From leads from the one to the other
    put_line(out, at, &numbers.map(|n| n as usize))
}

// The four numbers of a corner as depot, on a sheet that marks the closed crossings.
#[tactic(auto, using(field::specs::Limits::crossings_few))]
fn numbers(s: Sheet<'_>, depot: Depot) -> Placing
    ensures { let map = s.entry.map in HowPlaced map.w map.h (Marked s.entry.cells.now map.w map.h) (depot_x depot map.w) (depot_y depot map.h) result }
{
    let mut work = [0u8; MOST_CROSSINGS];
    placing::place(s, depot, &mut work[..s.cells.len()])
}

// Writes the line of a corner as depot, and adds its numbers to the sums. In a frame of its own: so
// its working sheet and the bits of a map that is read are never on the stack at once.
#[inline(never)]
fn put_depot(out: &mut [u8], told: Told, s: Sheet<'_>, depot: Depot) -> Told
    requires room { told.end + line_room ≤ length out.old }
    requires addable { Addable 1 told.sums }
    ensures { let map = s.entry.map in DepotTold map.w map.h (Marked s.entry.cells.now map.w map.h) depot told out.old out.new result }
{
    let p = numbers(s, depot);
    Told {
        end: put_four(out, told.end, p),
        sums: told.sums + p,
    }
}

// Writes the lines of the four corners, one after the other.
fn put_depots(out: &mut [u8], sums: Placing, s: Sheet<'_>) -> Told
    requires room { step_room ≤ length out.old }
    requires addable { Addable 4 sums }
    ensures { let map = s.entry.map in AllTold map.w map.h (Marked s.entry.cells.now map.w map.h) sums out.old out.new result }
{
    let mut told = Told { end: 0, sums };
    for depot in CORNERS {
        told = put_depot(out, told, s, depot);
    }
    told
}

// Stamps a raster's bits on a sheet of the map's size and labels it: then its marks are the closed
// crossings of the map.
fn label_bits(bits: &[u8], map: Size, sheet: &mut [u8])
    requires { MayStamp map.w map.h bits.now sheet.old }
    ensures { Draws map.w map.h (Closed (FileRock map.w map.h (take (map.h * map.w) bits.now)) map.w map.h) sheet.new }
{
    turning::turn(bits, map, sheet);
    labels::label(sheet, map);
}

// Writes the lines of a map whose bits the first of these are. It is labelled once, for all four
// corners.
#[tactic(auto, using(field::specs::Limits::crossings_few))]
pub fn put_map(out: &mut [u8], sums: Placing, bits: &[u8], map: Size) -> Told
    requires { MayTellMap map.w map.h bits.now sums out.old }
    ensures { MapTold map.w map.h bits.now sums out.old out.new result }
{
    let mut room = [0u8; MOST_CROSSINGS];
    let sheet = &mut room[..map.h * map.w];
    label_bits(bits, map, sheet);
    put_depots(out, sums, Sheet { cells: sheet, map })
}
