// The parts of the two map-file calls that need no list of records: writing from sheets on which
// the markers and the rocks are stamped, and reading into bits, from which each rock's marker is
// told.
#![tactic(auto)]

ghost use Rattle.std.specs.Prelude.{◌≡◌, ◌+◌, ◌*◌, ◌≤◌, length};
ghost use Rattle.field.specs.Map.{side};
ghost use Rattle.field.specs.Workings.MarkCount.{marks};
ghost use Rattle.mapfile.specs.MarkerLaws.{marker_at};
ghost use Rattle.exchange.specs.Promise.{Area, SharedTold, WriteRest, ReadFirst, RockAhead, NextRock, FirstRock, MayMark};

use field::{Marker, Reading, Refusal, Size, TALLEST};
use sheets::Sheet;

// How many crossings the map has. A size against the limits, which is refused, counts for none.
pub fn area(w: usize, h: usize) -> usize
    ensures { Area w h result }
{
    match sheets::sized(w, h) {
        Some(map) => map.h * map.w,
        None => 0,
    }
}

// How many crossings of a sheet are marked.
fn count_marks(sheet: &[u8]) -> usize
    ensures { result ≡ marks sheet.now }
{
    sheet.iter().filter(|b| **b != 0).count()
}

// The second part of writing, over a sheet on which `count` markers are stamped, low ones included:
// 16 where two of them share a crossing, which then has one mark for both.
pub fn shared(count: usize, sheet: &[u8]) -> Result<(), Refusal>
    ensures { SharedTold count sheet.now result }
{
    if count_marks(sheet) != count {
        return Err(Refusal::SharedCrossing);
    }
    Ok(())
}

// The third part of writing, over a sheet on which the rocks are stamped.
pub fn write_stamped(s: Sheet<'_>, out: &mut [u8]) -> Result<usize, Refusal>
    ensures { WriteRest s.entry.map.w s.entry.map.h s.entry.cells.now out.old out.new result }
{
    writer::write(s, out)
}

// The first part of reading: the file's bits in raster order, and the map or the refusal, 12, 13,
// 1, 14, 15 or 7. `lent` is how many slots the list has.
pub fn read_bits(src: &[u8], lent: usize, bits: &mut [u8]) -> Result<Reading, Refusal>
    requires { side * side ≤ length bits.old }
    ensures { ReadFirst src.now lent bits.new result }
{
    reader::read(src, lent, bits)
}

// How many crossings stand before the first rock, in raster order, or how many there are.
fn bare(bits: &[u8]) -> usize
    ensures { FirstRock bits.now result }
{
    bits.iter().position(|b| *b != 0).unwrap_or(bits.len())
}

// The first rock at `from` or after it, in raster order.
pub fn next_rock(bits: &[u8], from: usize) -> usize
    requires { RockAhead bits.now from }
    ensures { NextRock bits.now from result }
{
    from + bare(&bits[from..])
}

// The marker of the rock that stands at this place in raster order, the k-th of the file: ids rise
// from 1. "The first raster row is the northmost." "Markers read from a map file get 65,535."
pub fn marker_of(map: Size, place: usize, k: usize) -> Marker
    requires { MayMark map.w map.h place k }
    ensures { result ≡ marker_at map.w map.h (k + 1) place }
{
    let id = k + 1;
    // A processor divides numbers of 32 bits sooner than those of 64.
    let at = place as u32;
    let row = map.w as u32;
    let x = at % row;
    let rows = (at / row) as usize + 1;
    let y = map.h - rows;
    Marker {
        id: id as u16,
        x: x as u16,
        y: y as u16,
        height: TALLEST,
    }
}
