// A map file's raster, P1 or P4, read once: its bits go into lent bytes, one a crossing in raster
// order, its rocks are counted, and it is refused at the first fault met. Here stands what both
// formats share.
#![tactic(auto)]

mod plain;
mod raw;

ghost use Rattle.std.specs.Prelude.{◌≡◌, ℕ, ◌*◌, ◌≤◌, length};
ghost use Rattle.mapfile.specs.Raster.{row_bytes};
ghost use Rattle.raster.specs.RasterParts.{ReadAs, format_of};

use field::{Refusal, Size};

// The two formats of a map file: P1 and P4.
#[derive(Clone, Copy, Debug, PartialEq, Eq)]
pub enum Format {
    Plain,
    Raw,
}

// How many bytes a packed row has: eight crossings to a byte.
pub fn row_bytes(w: usize) -> usize
    ensures { result ≡ row_bytes w }
{
    w.div_ceil(8)
}

// Reads a raster of either format: the answer is how many of its bits are rocks.
pub fn read(format: Format, body: &[u8], map: Size, bits: &mut [u8]) -> Result<usize, Refusal>
    requires { map.h * map.w ≤ length bits.old }
    ensures { ReadAs (format_of format) map.w map.h body.now bits.new result }
{
    match format {
        Format::Plain => plain::read_plain(body, map, bits),
        Format::Raw => raw::read_raw(body, map, bits),
    }
}
