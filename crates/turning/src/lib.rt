// A raster of one byte a crossing turned onto a sheet of the map's size, or a sheet onto a raster:
// the raster has its rows from the north, the sheet from the south, so that one turn undoes the
// other.
#![tactic(auto)]

ghost use Rattle.std.specs.Prelude.{◌≡◌, ◌*◌, ◌<◌, ◌≤◌, length, take};
ghost use Rattle.mapfile.specs.Turned.{Turned};
ghost use Rattle.turning.specs.Turning.{MayTurn, raster_row};

use field::Size;

// Turns a raster onto a sheet. "The first raster row is the northmost": row y of the map is raster
// row h - (y + 1).
pub fn turn(raster: &[u8], map: Size, sheet: &mut [u8])
    requires { MayTurn map.w map.h raster.now sheet.old }
    ensures { Turned map.w map.h (take (map.h * map.w) raster.now) sheet.new }
{
    let Size { w, h, .. } = map;
    let put = move |y: usize, part: &mut [u8]|
        requires { (y < h) × (length part.now ≡ w) × (h * w ≤ length raster.now) }
        ensures { part.exit.now ≡ raster_row raster.entry.now w h y }
    {
        let from = (h - (y + 1)) * w;
        part.copy_from_slice(&raster[from..from + w]);
    };
    packing::each_row(sheet, w, h, put);
}
