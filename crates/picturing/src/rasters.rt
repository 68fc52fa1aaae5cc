// A picture's raster onto a sheet, and a sheet onto a raster: the raster has its rows from the
// north, the sheet from the south. A number is one byte of an old raster, and else two bytes, the
// high one first.
ghost use Rattle.std.specs.Prelude.{◌≡◌, [], ◌∷◌, ◌+◌, ◌*◌, ◌/◌, ◌%◌, ◌<◌, ◌≤◌, length, get_or};
ghost use Rattle.picturefile.specs.Depths.{Drawn, bytes_of};
ghost use Rattle.picturefile.specs.Working.{renewed_of, sample_of};
ghost use Rattle.picturing.specs.Rasters.{MayRead, RowWritten, MayWrite, numbers_of, row_of, bytes_from, raster_row, raster_of};

use field::{NO_DISTANCE, OLD_MARK, Size};
use picturefile::Depth;

// The number for a byte of an old sheet: "their 255 becoming 65,535".
fn renewed(byte: u8) -> u16
    ensures { result ≡ renewed_of byte }
{
    if byte == OLD_MARK {
        return NO_DISTANCE;
    }
    u16::from(byte)
}

// The number at a place of a raster: "high byte first as Netpbm says".
fn sample(raster: &[u8], depth: Depth, i: usize) -> u16
    requires { (i + 1) * bytes_of depth ≤ length raster.now }
    ensures { result ≡ sample_of depth raster.now i }
{
    match depth {
        Depth::OneByte => renewed(raster[i]),
        Depth::TwoBytes => u16::from_be_bytes([raster[2 * i], raster[2 * i + 1]]),
    }
}

// One row of a raster, which begins the slice, into the row's own part of the sheet.
fn read_row(raster: &[u8], depth: Depth, part: &mut [u16])
    requires { length part.old * bytes_of depth ≤ length raster.now }
    ensures { part.new ≡ numbers_of depth raster.now (length part.old) }
{
    for (x, n) in part.iter_mut().enumerate() {
        *n = sample(raster, depth, x);
    }
}

// Reads a raster onto a sheet of the map's size, "north row first".
pub(crate) fn read_rows(raster: &[u8], depth: Depth, map: Size, sheet: &mut [u16])
    requires { MayRead depth map.w map.h raster.now sheet.old }
    ensures { Drawn depth map.w map.h raster.now sheet.new }
{
    let Size { w, h, .. } = map;
    let read = move |y: usize, part: &mut [u16]|
        requires { (y < h) × (length part.now ≡ w) × (length raster.now ≡ h * w * bytes_of depth) }
        ensures { part.exit.now ≡ row_of depth raster.entry.now w h y }
    {
        let from = (h - (y + 1)) * (w * depth.bytes());
        read_row(&raster[from..], depth, part);
    };
    packing::each_row(sheet, w, h, read);
}

// One row of the sheet, which begins the slice, into the row's own part of the raster.
fn put_row(sheet: &[u16], w: usize, part: &mut [u8])
    requires { RowWritten w sheet.now part.old }
    ensures { part.new ≡ bytes_from sheet.now w }
{
    let put = move |x: usize, two: &mut [u8]|
        requires { (x < length sheet.now) × (length two.now ≡ 2) }
        ensures { two.exit.now ≡ (get_or sheet.entry.now x 0 / 256) ∷ (get_or sheet.entry.now x 0 % 256) ∷ [] }
    { two.copy_from_slice(&sheet[x].to_be_bytes()) };
    packing::each_row(part, 2, w, put);
}

// Writes the sheet of a map as a raster, "north row first": each row is lent its own part of it.
pub(crate) fn put_rows(sheet: &[u16], map: Size, out: &mut [u8])
    requires { MayWrite map.w map.h sheet.now out.old }
    ensures { out.new ≡ raster_of sheet.now map.w map.h }
{
    let Size { w, h, .. } = map;
    let put = move |r: usize, part: &mut [u8]|
        requires { (r < h) × (length part.now ≡ w * 2) × (length sheet.now ≡ h * w) }
        ensures { part.exit.now ≡ raster_row sheet.entry.now w h r }
    {
        let from = (h - (r + 1)) * w;
        put_row(&sheet[from..], w, part);
    };
    packing::each_row(out, w * 2, h, put);
}
