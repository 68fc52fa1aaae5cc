// The P1 raster: "digits 0 and 1, blanks allowed anywhere before, between and after".
ghost use Rattle.std.specs.Prelude.{◌≡◌, true, ◌↔◌, ℕ, ◌*◌, ◌≤◌, length};
ghost use Rattle.mapfile.specs.File.{plain};
ghost use Rattle.raster.specs.RasterParts.{ReadAs, BitByte};

use field::{Refusal, Size};
use header::is_blank;

// Whether the byte is a digit 0 or 1, in one test: b'0' is 48 and b'1' is 49, and no other byte
// gives 24 when it is halved.
fn is_bit(b: u8) -> bool
    ensures { (result ≡ true) ↔ BitByte b }
{
    b / 2 == 24
}

// Reads a P1 raster: "digits 0 and 1, blanks allowed anywhere before, between and after". It stops
// at the first fault met. Most bytes are digits, so a byte is tried as a digit first, and as a
// blank only where it is none.
pub(crate) fn read_plain(body: &[u8], map: Size, bits: &mut [u8]) -> Result<usize, Refusal>
    requires { map.h * map.w ≤ length bits.old }
    ensures { ReadAs plain map.w map.h body.now bits.new result }
{
    let size = map.h * map.w;
    let mut digits: usize = 0;
    let mut rocks: usize = 0;
    for &b in body {
        if is_bit(b) {
            if digits == size {
                return Err(Refusal::LongRaster);
            }
            bits[digits] = b - b'0';
            digits += 1;
            rocks += usize::from(b - b'0');
        } else if !is_blank(b) {
            if digits == size {
                return Err(Refusal::LongRaster);
            }
            return Err(Refusal::BadHeader);
        }
    }
    if digits < size {
        return Err(Refusal::ShortRaster);
    }
    Ok(rocks)
}
