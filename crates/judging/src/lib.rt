// Refusals that are told from numbers and yes-or-no answers alone, the lowest first. Nothing here
// touches what is lent.
#![tactic(auto)]

ghost use Rattle.std.specs.Prelude.{◌≡◌, true, ◌↔◌, ◌<◌, ◌^◌, IfOk};
ghost use Rattle.field.specs.Map.{On};
ghost use Rattle.field.specs.Refusals.{told};
ghost use Rattle.markers.specs.Promise.{marker};
ghost use Rattle.sheets.specs.Promise.{Of};
ghost use Rattle.calls.specs.Rule.{Gives};
ghost use Rattle.judging.specs.Judging.{OneFit, FourFit, asking_judged, new_judged, clear_judged};

use field::{MOST_MARKERS, Marker, Place, Refusal, Size};
use sheets::sized;

// Whether p is a crossing of the map.
fn on_map(w: usize, h: usize, p: Place) -> bool
    ensures { (result ≡ true) ↔ On w h p.x p.y }
{
    p.x < w && p.y < h
}

// Whether a sheet of n bytes, or of n sixteen-bit numbers, is of the map's size. The product is made
// only within the limit, so that it does not overflow.
#[tactic(auto, using(sheets::proofs::Told::crossings_fit))]
pub fn fits(w: usize, h: usize, n: usize) -> bool
    ensures { (result ≡ true) ↔ OneFit w h n }
{
    sized(w, h).is_some_and(|map| n == map.h * map.w)
}

// Whether four sheets are.
pub fn four_fit(w: usize, h: usize, n: usize, m: usize, k: usize, l: usize) -> bool
    ensures { (result ≡ true) ↔ FourFit w h n m k l }
{
    fits(w, h, n) && fits(w, h, m) && fits(w, h, k) && fits(w, h, l)
}

// The map's size, or the lowest of refusals 1 to 4: n is the label sheet's length, `others` tells
// whether every other sheet is of the map's size, `well` whether the list is well formed; a and b
// are the places asked.
#[tactic(auto, using(sheets::proofs::Told::crossings_fit))]
pub fn lowest(
    w: usize,
    h: usize,
    n: usize,
    others: bool,
    well: bool,
    a: Place,
    b: Place,
) -> Result<Size, Refusal>
    ensures given { Gives (asking_judged w h n others well a.x a.y b.x b.y) (told result) }
    ensures size { IfOk result (λ map. Of w h map) }
{
    let map = sized(w, h).ok_or(Refusal::BadSize)?;
    if n != map.h * map.w || !others {
        return Err(Refusal::BadSheet);
    }
    if !well {
        return Err(Refusal::BadList);
    }
    if !on_map(w, h, a) || !on_map(w, h, b) {
        return Err(Refusal::BadPlace);
    }
    Ok(map)
}

// The marker with this id on p, of this height.
pub fn marker(id: u16, p: Place, height: u16) -> Marker
    requires { (p.x < 2 ^ 16) × (p.y < 2 ^ 16) }
    ensures { result ≡ marker id p.x p.y height }
{
    Marker {
        id,
        x: p.x as u16,
        y: p.y as u16,
        height,
    }
}

// Whether a new marker may be entered on a good map and list: `used` tells whether its id is in use.
#[tactic(auto, using(field::specs::Limits::most_markers_is))]
pub fn may_enter(
    used: bool,
    w: usize,
    h: usize,
    id: u16,
    p: Place,
    count: usize,
    lent: usize,
) -> Result<(), Refusal>
    ensures { Gives (new_judged used w h id p.x p.y count lent) (told result) }
{
    if !on_map(w, h, p) || id == 0 {
        return Err(Refusal::BadPlace);
    }
    if used {
        return Err(Refusal::IdInUse);
    }
    if lent <= count || MOST_MARKERS <= count {
        return Err(Refusal::NoSlot);
    }
    Ok(())
}

// Whether a marker may be cleared from a good list: `used` tells whether its id is in use.
pub fn may_clear(used: bool) -> Result<(), Refusal>
    ensures { Gives (clear_judged used) (told result) }
{
    if !used {
        return Err(Refusal::IdNotInUse);
    }
    Ok(())
}
