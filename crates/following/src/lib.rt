// The map that the bytes at hand begin with, of maps that follow one another in one input (document
// 02, Req 05): read, refused, too long, or not yet told. A fault is told as soon as it is the same
// whatever bytes follow.
#![tactic(auto)]

ghost use Rattle.std.specs.Prelude.{◌≡◌, true, List, ◌++◌, ◌↔◌, ℕ, ◌+◌, ◌*◌, ◌≤◌, length, drop};
ghost use Rattle.field.specs.Map.{side};
ghost use Rattle.mapfile.specs.HeaderCut.{probe};
ghost use Rattle.mapfile.specs.Pieces.{LettersCut};
ghost use Rattle.following.specs.Promise.{FirstRead};
ghost use Rattle.following.specs.Parts.{PieceRead, MayRead, Joined, HasHeader, Lettered, MayReadHeader, Headless, MayReadRaster};
ghost use Rattle.following.specs.declared.Stop.TheVariants.{Refused};

use field::{MOST_MARKERS, Refusal, Size};
use mapfile::MOST_BYTES;
use raster::Format;

// A map that bytes begin with: its size, and how many of the bytes it has.
#[derive(Clone, Copy, Debug, PartialEq, Eq)]
pub struct Piece {
    pub map: Size,
    pub used: usize,
}

// Why the bytes begin with no map: they are refused, or a map that is too long.
#[derive(Clone, Copy, Debug, PartialEq, Eq)]
pub enum Stop {
    Refused(Refusal),
    Long,
}

impl From<Refusal> for Stop {
    ghost from_gives = { λ refusal stop. stop ≡ Refused refusal };

    fn from(refusal: Refusal) -> Stop {
        Stop::Refused(refusal)
    }
}

// As many bytes as a map may have, and the probe after them.
const TRIED: usize = MOST_BYTES + 6;

// Whether there are fewer than two bytes, which may still become the letters.
fn letters_cut(src: &[u8]) -> bool
    ensures { (result ≡ true) ↔ LettersCut src.now }
{
    matches!(src, [] | [b'P'])
}

// Copies the bytes to the front, and the probe after them.
fn join(src: &[u8], tried: &mut [u8])
    requires { length src.now + length probe ≤ length tried.old }
    ensures { Joined src.now tried.new }
{
    let n = src.len();
    tried[..n].copy_from_slice(src);
    tried[n..n + 6].copy_from_slice(b"\n\n1\n1\n");
}

// Whether a header that is cut short can still become one: if any bytes that follow make it one,
// then the probe does.
fn header_cut(src: &[u8]) -> bool
    requires { Lettered src.now }
    ensures { (result ≡ true) ↔ HasHeader (drop 2 src.now ++ probe) }
{
    let mut tried = [0u8; TRIED];
    join(src, &mut tried);
    let end = src.len() + 6;
    let mut sides = [0usize; 2];
    header::header(&tried[..end], 2, &mut sides).is_some()
}

// Bytes that have the letters and no header: 13, unless the input goes on and may make one.
fn headless(src: &[u8], ended: bool) -> Result<Option<Piece>, Refusal>
    requires { Headless src.now }
    ensures { (out : List ℕ) → PieceRead src.now ended out result }
{
    if !ended && header_cut(src) {
        return Ok(None);
    }
    Err(Refusal::BadHeader)
}

// Reads the raster that begins at this place. It has as many bytes as its rows; what follows begins
// the next map.
fn read_raster(
    src: &[u8],
    ended: bool,
    at: usize,
    map: Size,
    bits: &mut [u8],
) -> Result<Option<Piece>, Refusal>
    requires { MayReadRaster src.now at map.w map.h bits.old }
    ensures { PieceRead src.now ended bits.new result }
{
    let size = map.h * raster::row_bytes(map.w);
    if src.len() - at < size {
        if ended {
            return Err(Refusal::ShortRaster);
        }
        return Ok(None);
    }
    let end = at + size;
    let rocks = raster::read(Format::Raw, &src[at..end], map, bits)?;
    if MOST_MARKERS < rocks {
        return Err(Refusal::NoSlot);
    }
    Ok(Some(Piece { map, used: end }))
}

// Reads what follows the letters.
fn read_map(src: &[u8], ended: bool, bits: &mut [u8]) -> Result<Option<Piece>, Refusal>
    requires { MayReadHeader src.now bits.old }
    ensures { PieceRead src.now ended bits.new result }
{
    let mut sides = [0usize; 2];
    let Some(at) = header::header(src, 2, &mut sides) else {
        return headless(src, ended);
    };
    let Some(map) = sheets::sized(sides[0], sides[1]) else {
        return Err(Refusal::BadSize);
    };
    read_raster(src, ended, at, map, bits)
}

// Tells the map that these bytes begin with, not more than a map may have; or that more bytes are
// needed to tell.
fn read_piece(src: &[u8], ended: bool, bits: &mut [u8]) -> Result<Option<Piece>, Refusal>
    requires { MayRead src.now bits.old }
    ensures { PieceRead src.now ended bits.new result }
{
    if header::begins(src, b"P4") {
        return read_map(src, ended, bits);
    }
    if !ended && letters_cut(src) {
        return Ok(None);
    }
    Err(Refusal::BadLetters)
}

// Tells the map that the bytes at hand begin with, or that more bytes are needed to tell; `ended`:
// the input ends with them. Of more bytes than a map may have only so many are looked at, and the
// input does not end with these: what they do not tell is too long. A map's bits go into lent
// bytes, in raster order; at another answer these hold nothing of use.
pub fn next_map(src: &[u8], ended: bool, bits: &mut [u8]) -> Result<Option<Piece>, Stop>
    requires { side * side ≤ length bits.old }
    ensures { FirstRead src.now ended bits.new result }
{
    if MOST_BYTES < src.len() {
        return match read_piece(&src[..MOST_BYTES], false, bits)? {
            Some(piece) => Ok(Some(piece)),
            None => Err(Stop::Long),
        };
    }
    Ok(read_piece(src, ended, bits)?)
}
