// The P4 raster: "each row is packed eight crossings to a byte, highest bit westmost, 1 a rock".
ghost use Rattle.std.specs.Prelude.{◌≡◌, ℕ, ◌*◌, ◌/◌, ◌<◌, ◌≤◌, length};
ghost use Rattle.mapfile.specs.File.{raw};
ghost use Rattle.raster.specs.RasterParts.{row_bit, ReadAs, MayReadRow, RowRead, MayReadRows, RowsRead};

use super::row_bytes;
use field::{Refusal, Size};

// The bit of column x in a packed row: "highest bit westmost, 1 a rock".
fn bit_at(row: &[u8], x: usize) -> u8
    requires { x / 8 < length row.now }
    ensures { result ≡ row_bit row.now x }
{
    (row[x / 8] >> (7 - x % 8)) % 2
}

// Reads a packed row: the bit of each column, from `at` on. Hands back how many are rocks. "Pad
// bits at a row's end are ignored": they are not looked at.
fn read_row(row: &[u8], w: usize, at: usize, bits: &mut [u8]) -> usize
    requires { MayReadRow row.now w at bits.old }
    ensures { RowRead row.now w at bits.old bits.new result }
{
    let mut rocks: usize = 0;
    for x in 0..w {
        let b = bit_at(row, x);
        bits[at + x] = b;
        rocks += usize::from(b);
    }
    rocks
}

// Reads the packed rows. "The first raster row is the northmost": the bits keep the rows' order.
fn read_rows(body: &[u8], map: Size, bits: &mut [u8]) -> usize
    requires { MayReadRows map.w map.h body.now bits.old }
    ensures { RowsRead map.w map.h body.now bits.new result }
{
    let bytes = row_bytes(map.w);
    let mut rocks: usize = 0;
    for k in 0..map.h {
        let from = k * bytes;
        rocks += read_row(&body[from..], map.w, k * map.w, bits);
    }
    rocks
}

// Reads a P4 raster: as many bytes as the rows have, or it ends early, or there are bytes after it.
pub(crate) fn read_raw(body: &[u8], map: Size, bits: &mut [u8]) -> Result<usize, Refusal>
    requires { map.h * map.w ≤ length bits.old }
    ensures { ReadAs raw map.w map.h body.now bits.new result }
{
    let size = map.h * row_bytes(map.w);
    if body.len() < size {
        return Err(Refusal::ShortRaster);
    }
    if size < body.len() {
        return Err(Refusal::LongRaster);
    }
    Ok(read_rows(body, map, bits))
}
