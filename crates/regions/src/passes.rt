// The two passes that make the region. Each walks over the rectangle that the two ends span: row by
// row from its own end's row to the other's, and in each row from its own end's column to the
// other's, so that the neighbours one hop nearer its end are always behind it.
ghost use Rattle.std.specs.Prelude.{◌≡◌, ◌≤◌, ℕ, cond, set};
ghost use Rattle.field.specs.Map.{On, number, at, gap};
ghost use Rattle.regions.specs.Promise.{MayFind};
ghost use Rattle.regions.specs.Passes.{Along, Tells, InRow, Spanned, backed, Pass, free};

use super::looks::has_back;
use field::{Place, Size};
use sheets::{Sheet, number_of};

// The place k hops from a towards b, on one axis.
fn along(a: usize, b: usize, k: usize) -> usize
    requires { k ≤ gap a b }
    ensures { Along a b k result }
{
    if a < b { a + k } else { a - k }
}

// Sets p to v where it is the end or has a mark one hop nearer it, and else to 0.
fn settle(map: Size, end: Place, p: Place, v: u8, g: &mut [u8])
    requires { MayFind map.w map.h g.old end.x end.y p.x p.y }
    ensures { g.new ≡ set g.old (number map.w p.x p.y) (cond (backed g.old map.w map.h end.x end.y p.x p.y) v 0) }
{
    let kept = has_back(Sheet { cells: g, map }, end, p);
    g[number_of(map, p)] = if kept { v } else { 0 };
}

// 1 where p is open, and else 0.
fn free_at(s: Sheet<'_>, p: Place) -> u8
    requires { On s.map.w s.map.h p.x p.y }
    ensures { result ≡ free s.entry.cells.now s.entry.map.w p.x p.y }
{
    u8::from(s.at(p) == 0)
}

// A pass from an end in one row, as far as the other place in it: what is backed gets the value
// that the closure gives for its mark and place.
fn pass_row<F: Fn(u8, Place) -> u8>(map: Size, end: Place, to: Place, f: &F, g: &mut [u8])
    ghost v: { ℕ → ℕ → ℕ }
    requires lent { MayFind map.w map.h g.old end.x end.y to.x to.y }
    requires tells { Tells (F.pre f.now) (F.post f.now) map.w map.h (InRow end.x to.x to.y) v g.old }
    ensures { Pass map.w map.h end.x end.y (InRow end.x to.x to.y) v g.old g.new }
{
    for k in 0..end.x.abs_diff(to.x) + 1 {
        let p = Place {
            x: along(end.x, to.x, k),
            y: to.y,
        };
        let mark = f(g[number_of(map, p)], p);
        settle(map, end, p, mark, g);
    }
}

// A pass from an end over the rectangle that it and the other end span.
fn pass<F: Fn(u8, Place) -> u8>(map: Size, end: Place, to: Place, f: F, g: &mut [u8])
    ghost v: { ℕ → ℕ → ℕ }
    requires lent { MayFind map.w map.h g.old end.x end.y to.x to.y }
    requires tells { Tells (F.pre f) (F.post f) map.w map.h (Spanned end.x end.y to.x to.y) v g.old }
    ensures { Pass map.w map.h end.x end.y (Spanned end.x end.y to.x to.y) v g.old g.new }
{
    for k in 0..end.y.abs_diff(to.y) + 1 {
        let row = along(end.y, to.y, k);
        pass_row(map, end, Place { x: to.x, y: row }, &f, g);
    }
}

// The pass from s: a mark at every open crossing of the rectangle that is backed.
pub fn spread(s: Sheet<'_>, end: Place, to: Place, g: &mut [u8])
    requires { MayFind s.map.w s.map.h g.old end.x end.y to.x to.y }
    ensures { Pass s.entry.map.w s.entry.map.h end.x end.y (Spanned end.x end.y to.x to.y) (free s.entry.cells.now s.entry.map.w) g.old g.new }
{
    pass(s.map, end, to, |_, p| free_at(s, p), g);
}

// The pass from d: a mark of the rectangle stays where it is backed.
pub fn sift(map: Size, end: Place, to: Place, g: &mut [u8])
    requires { MayFind map.w map.h g.old end.x end.y to.x to.y }
    ensures { Pass map.w map.h end.x end.y (Spanned end.x end.y to.x to.y) (at g.old map.w) g.old g.new }
{
    pass(map, end, to, |mark, _| mark, g);
}
