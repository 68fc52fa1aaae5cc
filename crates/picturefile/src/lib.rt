// Pictures of distances: raw PGM as document 02's Req 03 and Req 07 bound it. The grammar stands in
// specs/; reading and writing are `picturing`.
#![tactic(auto)]

ghost use Rattle.std.specs.Prelude.{◌≡◌};
ghost use Rattle.picturefile.specs.Depths.{bytes_of};
ghost use Rattle.picturefile.specs.Kinds.{KindOf};

use field::{LARGEST, OLD_LARGEST, Refusal};

// The two kinds of picture: the old one of one byte a crossing, and that of two bytes.
#[derive(Clone, Copy, Debug, PartialEq, Eq)]
pub enum Depth {
    OneByte,
    TwoBytes,
}

impl Depth {
    // The bytes a crossing of a raster.
    pub fn bytes(self) -> usize
        ensures { result ≡ bytes_of self }
    {
        match self {
            Depth::OneByte => 1,
            Depth::TwoBytes => 2,
        }
    }
}

// The kind, of the largest value that a header names: 65535, or the old 255. "18 refuses a largest
// value other than 255 or 65535."
impl TryFrom<usize> for Depth {
    type Error = Refusal;

    ghost try_from_gives = { λ largest r. KindOf largest r };

    fn try_from(largest: usize) -> Result<Depth, Refusal> {
        if largest == OLD_LARGEST {
            return Ok(Depth::OneByte);
        }
        if largest == LARGEST {
            return Ok(Depth::TwoBytes);
        }
        Err(Refusal::BadLargest)
    }
}
