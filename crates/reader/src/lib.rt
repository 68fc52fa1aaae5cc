// The map reader: PBM, plain P1 and raw P4, within document 01's bounds, into lent bytes that hold
// a bit for each crossing. It goes over the file once, and tells every refusal before anything of
// the caller's is touched.
#![tactic(auto)]

ghost use Rattle.std.specs.Prelude.{◌≡◌, true, ◌↔◌, ℕ, ◌*◌, ◌≤◌, length};
ghost use Rattle.field.specs.Map.{side};
ghost use Rattle.reader.specs.Promise.{Reads};
ghost use Rattle.reader.specs.LettersParts.{LettersRead};
ghost use Rattle.raster.specs.RasterParts.{format_of};
ghost use Rattle.reader.specs.ReadingParts.{HasRoom, RasterReads, MayReadMap};

use field::{MOST_MARKERS, Reading, Refusal, Size};
use raster::Format;

// The format that the file's first two bytes name: "The file starts with the two bytes P1 or P4."
fn first_two(src: &[u8]) -> Option<Format>
    ensures { LettersRead src.now result }
{
    if header::begins(src, b"P1") {
        return Some(Format::Plain);
    }
    if header::begins(src, b"P4") {
        return Some(Format::Raw);
    }
    None
}

// Whether the rocks find a slot each: they pass neither the list lent nor the limit.
fn has_room(rocks: usize, lent: usize) -> bool
    ensures { (result ≡ true) ↔ HasRoom rocks lent }
{
    rocks <= lent && rocks <= MOST_MARKERS
}

// Reads the raster, for a list of `lent` slots: "at the first fault met 13, 14 or 15, then 7".
fn read_raster(
    format: Format,
    body: &[u8],
    map: Size,
    lent: usize,
    bits: &mut [u8],
) -> Result<Reading, Refusal>
    requires { map.h * map.w ≤ length bits.old }
    ensures { RasterReads (format_of format) map body.now lent bits.new result }
{
    let rocks = raster::read(format, body, map, bits)?;
    if !has_room(rocks, lent) {
        return Err(Refusal::NoSlot);
    }
    Ok(Reading { map, rocks })
}

// Reads what follows the letters of a format. "the raster begins right after that one blank byte".
fn read_map(src: &[u8], format: Format, lent: usize, bits: &mut [u8]) -> Result<Reading, Refusal>
    requires { MayReadMap (format_of format) src.now bits.old }
    ensures { Reads src.now lent bits.new result }
{
    let mut sides = [0usize; 2];
    let at = header::header(src, 2, &mut sides).ok_or(Refusal::BadHeader)?;
    let map = sheets::sized(sides[0], sides[1]).ok_or(Refusal::BadSize)?;
    read_raster(format, &src[at..], map, lent, bits)
}

// Reads a map file, for a list of `lent` slots. Its bits go into lent bytes, in raster order; at a
// refusal these hold nothing of use.
pub fn read(src: &[u8], lent: usize, bits: &mut [u8]) -> Result<Reading, Refusal>
    requires { side * side ≤ length bits.old }
    ensures { Reads src.now lent bits.new result }
{
    let format = first_two(src).ok_or(Refusal::BadLetters)?;
    read_map(src, format, lent, bits)
}
