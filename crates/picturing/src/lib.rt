// Pictures of distances, raw PGM: a sheet written as a picture, and a picture read back into a
// sheet. A sheet is only sixteen-bit numbers here. Every refusal is told before a byte or a number
// of the caller's is touched.
#![tactic(auto)]

mod rasters; // rasters.rt: the rows of a picture, from and onto a sheet

ghost use Rattle.std.specs.Prelude.{◌≡◌, [], ◌∷◌, ◌++◌, ◌*◌, length};
ghost use Rattle.field.specs.Map.{largest_value};
ghost use Rattle.field.specs.Refusals.{told};
ghost use Rattle.calls.specs.Rule.{Gives};
ghost use Rattle.calls.specs.PictureCalls.{WriteSheetCall, ReadSheetCall};
ghost use Rattle.calls.specs.Told.{sheet_written, sheet_read};
ghost use Rattle.writer.specs.Digits.{digits_of};
ghost use Rattle.picturing.specs.Parts.{Puts, Judged, picture_judged};

use field::{LARGEST, Refusal, Size};
use picturefile::Depth;

// The largest value and the blank after it: "65535", LF.
fn write_largest(out: &mut [u8])
    requires { length out.old ≡ 6 }
    ensures { out.new ≡ digits_of 5 largest_value ++ 10 ∷ [] }
{
    let (number, end) = out.split_at_mut(5);
    writer::write_number(number, LARGEST);
    end[0] = b'\n';
}

// Writes a sheet of the map's size: "P5", LF, width, space, height, LF, "65535", LF and the rows
// from the north, two bytes a crossing, each into its own part of the output. An output too short
// for them all is left as it is, and so are bytes past the end.
fn put(sheet: &[u16], map: Size, out: &mut [u8]) -> Result<usize, Refusal>
    requires { length sheet.now ≡ map.h * map.w }
    ensures { Puts map.w map.h sheet.now out.old out.new result }
{
    let Size { w, h, .. } = map;
    let a = writer::digit_count(w);
    let b = writer::digit_count(h);
    let start = a + b + 5;
    let end = start + 6 + h * (w * 2);
    if out.len() < end {
        return Err(Refusal::ShortOutput);
    }
    let (file, _) = out.split_at_mut(end);
    let (header, rest) = file.split_at_mut(start);
    let (largest, rows) = rest.split_at_mut(6);
    writer::write_header(header, b"P5", w, a, h, b);
    write_largest(largest);
    rasters::put_rows(sheet, map, rows);
    Ok(end)
}

// Writes a sheet as a picture. Hands back the number of bytes written, or the refusal: 1, 2 or 17.
pub fn write(sheet: &[u16], w: usize, h: usize, out: &mut [u8]) -> Result<usize, Refusal>
    ensures { WriteSheetCall sheet.now w h out.old out.new (sheet_written result) }
{
    let map = sheets::sized(w, h).ok_or(Refusal::BadSize)?;
    if sheet.len() != h * w {
        return Err(Refusal::BadSheet);
    }
    put(sheet, map, out)
}

// The size and the kind of a picture with a good header, or the refusal: 1, 18, 2, 14 or 15, in
// that order. `lent` is how many numbers the sheet has, `left` how many bytes the raster.
fn judge(
    w: usize,
    h: usize,
    largest: usize,
    lent: usize,
    left: usize,
) -> Result<(Size, Depth), Refusal>
    ensures judged { Judged w h largest lent left result }
    ensures given { Gives (picture_judged w h largest lent left) (told result) }
{
    let Some(map) = sheets::sized(w, h) else {
        return Err(Refusal::BadSize);
    };
    let crossings = h * w;
    let depth = Depth::try_from(largest)?;
    if lent != crossings {
        return Err(Refusal::BadSheet);
    }
    let whole = crossings * depth.bytes();
    if left < whole {
        return Err(Refusal::ShortRaster);
    }
    if whole < left {
        return Err(Refusal::LongRaster);
    }
    Ok((map, depth))
}

// Reads a picture into a sheet of its size, by crossing number. Hands back width and height, or the
// refusal: 12, 13, 1, 18, 2, 14 or 15, which changes no number of the sheet.
pub fn read(src: &[u8], sheet: &mut [u16]) -> Result<Size, Refusal>
    ensures { ReadSheetCall src.now sheet.old sheet.new (sheet_read result) }
{
    if !header::begins(src, b"P5") {
        return Err(Refusal::BadLetters);
    }
    let mut numbers = [0usize; 3];
    let Some(at) = header::header(src, 2, &mut numbers) else {
        return Err(Refusal::BadHeader);
    };
    let [w, h, largest] = numbers;
    let raster = &src[at..];
    let (map, depth) = judge(w, h, largest, sheet.len(), raster.len())?;
    rasters::read_rows(raster, depth, map, sheet);
    Ok(map)
}
