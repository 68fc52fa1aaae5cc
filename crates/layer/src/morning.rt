// The hop by a morning sheet (document 02, Req 09). It labels nothing: the list is held against the
// sheet, the sheet is looked at by itself, and the hop is answered over what it shows closed. List
// and sheet are lent to be read alone.
ghost use Rattle.calls.specs.HopByCall.{HopByCall};
ghost use Rattle.calls.specs.Told.{homeward_of};
ghost use Rattle.layer.specs.Prepared.{lent_of};
ghost use Rattle.layer.specs.Morning.{Looked};

use super::LentMap;
use field::{Hops, Place, Refusal, Size};
use sheets::Sheet;

// The first part: the lowest of refusals 1 to 4; where there is none, 20 if the sheet shows a rock
// open that stops a cart of this clearance; else the map's size.
fn look_at(lent: LentMap<'_>, home: Place, p: Place, sheet: &[u8]) -> Result<Size, Refusal>
    ensures { Looked (lent_of lent.entry) home.x home.y p.x p.y sheet.now result }
{
    let well = records::well_formed(lent.list, lent.count, lent.w, lent.h);
    let map = judging::lowest(lent.w, lent.h, sheet.len(), true, well, home, p)?;
    let shown = records::shown(
        lent.list,
        lent.count,
        lent.clearance,
        Sheet { cells: sheet, map },
    );
    if !shown {
        return Err(Refusal::NotTaken);
    }
    Ok(map)
}

// Every permitted hop of a cart of this clearance from p towards home by a morning sheet, none at
// home, or the refusal: 1, 2, 3, 4, 20, 8 or 11, in this order.
pub fn bodkin_hop_by(
    lent: LentMap<'_>,
    home: Place,
    p: Place,
    sheet: &[u8],
) -> Result<Hops, Refusal>
    ensures { HopByCall (lent_of lent.entry) home.x home.y p.x p.y sheet.now (homeward_of result) }
{
    let first = look_at(lent, home, p, sheet);
    askings::hop_by(first, sheet, home, p)
}
