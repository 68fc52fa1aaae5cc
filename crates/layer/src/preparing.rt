// What every asking does first. It stands apart from the calls, so that the calls of the root and
// those of its modules rest on it, and it on none of them.
ghost use Rattle.layer.specs.Prepared.{lent_of, Prepared};

use super::LentMap;
use field::{Place, Refusal, Size};

// What a call names that asks for no place: it is on every map.
pub const ORIGIN: Place = Place { x: 0, y: 0 };

// The first part of every asking: the lowest of refusals 1 to 4; and where there is none, the map's
// size, and the rocks of a cart of this clearance stamped on the label sheet; with `low`, every
// marker, low ones included. `others` tells whether every other lent sheet is of the map's size; a
// and b are the places asked. It stands in place of each call, so that a refusal costs none.
#[inline(always)]
pub fn prepare(
    lent: LentMap<'_>,
    low: bool,
    a: Place,
    b: Place,
    others: bool,
    labels: &mut [u8],
) -> Result<Size, Refusal>
    ensures { Prepared (lent_of lent.entry) low a.x a.y b.x b.y others labels.old labels.new result }
{
    let well = records::well_formed(lent.list, lent.count, lent.w, lent.h);
    let map = judging::lowest(lent.w, lent.h, labels.len(), others, well, a, b)?;
    records::stamp(lent.list, lent.count, map, lent.clearance, low, labels);
    Ok(map)
}
