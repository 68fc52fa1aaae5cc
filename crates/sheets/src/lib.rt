// What is done with a sheet of any kind: whether its map's size is within the limits, a crossing's
// number, the byte that stands there; and one hop along an axis.
#![tactic(auto)]

ghost use Rattle.std.specs.Prelude.{◌≡◌, true, ◌≢◌, ◌↔◌, ◌*◌, length};
ghost use Rattle.field.specs.Map.{Sides, On, at};
ghost use Rattle.field.specs.Workings.Looking.{hop_to};
ghost use Rattle.sheets.specs.Promise.{Numbered, IsSize};

use field::{Place, SIDE, Size};

// A sheet of a map to look at: a byte for each crossing, by its number.
#[derive(Clone, Copy)]
pub struct Sheet<'a> {
    pub cells: &'a [u8],
    pub map: Size,
    pub ghost fits: { length cells.now ≡ map.h * map.w },
}

impl<'a> Sheet<'a> {
    // What the sheet has at a place.
    pub fn at(self, p: Place) -> u8
        requires { On self.map.w self.map.h p.x p.y }
        ensures { result ≡ at self.entry.cells.now self.entry.map.w p.x p.y }
    {
        self.cells[number_of(self.map, p)]
    }
}

// The size of a map, where it is within the limits: "Width and height: 1 to 64 each", with Req 07 to
// 256.
pub fn sized(w: usize, h: usize) -> Option<Size>
    ensures { IsSize w h result }
{
    if w == 0 {
        return None;
    }
    if h == 0 {
        return None;
    }
    if SIDE < w {
        return None;
    }
    if SIDE < h {
        return None;
    }
    Some(Size { w, h })
}

// "Its number is y × width + x."
pub fn number_of(map: Size, p: Place) -> usize
    requires { On map.w map.h p.x p.y }
    ensures { Numbered map.w map.h p.x p.y result }
{
    p.y * map.w + p.x
}

// The place next to p on one axis, one hop nearer d.
pub fn hop(p: usize, d: usize) -> usize
    requires { p ≢ d }
    ensures { result ≡ hop_to p d }
{
    if p < d {
        return p + 1;
    }
    p - 1
}
