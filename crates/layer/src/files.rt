// The two map-file calls: the list written as a map file, and a map file read into the list.
ghost use Rattle.std.specs.Prelude.{◌≡◌, ◌*◌, length, take};
ghost use Rattle.mapfile.specs.File.{markers_of};
ghost use Rattle.exchange.specs.Promise.{Area};
ghost use Rattle.calls.specs.Calls.{ReadCall, WriteCall};
ghost use Rattle.calls.specs.Told.{read_map, wrote_map};
ghost use Rattle.layer.specs.Prepared.{lent_of};
ghost use Rattle.layer.specs.Files.{MayPut, put_in};

use super::LentMap;
use super::preparing::{ORIGIN, prepare};
use field::{MOST_CROSSINGS, Marker, Reading, Refusal};
use sheets::Sheet;

// Writes the list as a map file, P4: the rocks of a cart of this clearance. Hands back how many
// bytes were written, or the refusal: 1, 3, 16 or 17. Bytes past the end stay, and a refusal
// changes none. 16 looks at all markers, low ones included: so these are stamped first, and the
// rocks over them.
pub fn bodkin_write(lent: LentMap<'_>, out: &mut [u8]) -> Result<usize, Refusal>
    ensures { WriteCall (lent_of lent.entry) out.old out.new (wrote_map result) }
{
    let mut sheet = [0u8; MOST_CROSSINGS];
    let size = exchange::area(lent.w, lent.h);
    write_over(lent, &mut sheet[..size], out)
}

// Writes the list over a sheet of the map's size, on which all markers are stamped first, and the
// rocks over them.
fn write_over(lent: LentMap<'_>, sheet: &mut [u8], out: &mut [u8]) -> Result<usize, Refusal>
    requires { Area lent.w lent.h (length sheet.old) }
    ensures { WriteCall (lent_of lent.entry) out.old out.new (wrote_map result) }
{
    let map = prepare(lent, true, ORIGIN, ORIGIN, true, sheet)?;
    exchange::shared(lent.count, sheet)?;
    records::stamp(lent.list, lent.count, map, lent.clearance, false, sheet);
    exchange::write_stamped(Sheet { cells: sheet, map }, out)
}

// The second part of reading: puts the map's markers in the first slots of the list, by its bits in
// raster order. Other slots stay.
fn put(list: &mut [Marker], found: Reading, bits: &[u8])
    requires { MayPut list.old found.rocks found.map.w found.map.h bits.now }
    ensures { list.new ≡ put_in list.old found.rocks (markers_of found.map.w found.map.h (take (found.map.h * found.map.w) bits.now)) }
{
    let mut i: usize = 0;
    for k in 0..found.rocks {
        let at = exchange::next_rock(bits, i);
        list[k] = exchange::marker_of(found.map, at, k);
        i = at + 1;
    }
}

// Reads a map file. Its rocks become markers with ids 1, 2, 3 and on, in raster order, in the first
// slots; other slots stay. Hands back width, height and count, or the refusal: 12, 13, 1, 14, 15 or
// 7, which changes no slot.
pub fn bodkin_read(src: &[u8], list: &mut [Marker]) -> Result<Reading, Refusal>
    ensures { ReadCall src.now list.old list.new (read_map result) }
{
    let mut bits = [0u8; MOST_CROSSINGS];
    let found = exchange::read_bits(src, list.len(), &mut bits)?;
    put(list, found, &bits);
    Ok(found)
}
