// Sweeping a sheet on which the rocks are stamped, sweep by sweep, and the number of sweeps
// (document 02, request 10). Crossings that a sweep has closed wait in a queue for the next one: a
// crossing that the next sweep closes has one of them for a neighbour, so no other need be judged.
// Each closed crossing is in the queue once, and its neighbours are judged once for it: the work is
// linear in the map, however many sweeps there are.
#![tactic(auto)]

ghost use Rattle.std.specs.Prelude.{◌≡◌};
ghost use Rattle.field.specs.Map.{On};
ghost use Rattle.field.specs.Workings.Sheet.{around};
ghost use Rattle.rows.specs.Sheets.{Stamped};
ghost use Rattle.sweeping.specs.Promise.{Sweeping};
ghost use Rattle.sweeping.specs.Steps.{IsNext, OnAt, before, LookedAt, Ready, JudgedAt, SpreadFrom, Spreads, SweepsPart, SweptPart, Settles, Settled, Putting, Put, Gathers, Gathered, Stepped, AllSweeps};

use field::{MOST_CROSSINGS, Place, Size};
use sheets::{Sheet, number_of};

// The label of a shut crossing; and what stands for it while the sweep that closes it is made.
// Until the sweep is over such a crossing counts as open.
const SHUT: u8 = 2;

const NEW: u8 = 3;

// The four sides of a crossing.
#[derive(Clone, Copy)]
enum Side {
    East,
    West,
    North,
    South,
}

// The place next to p on a side, where the map has one.
fn next(map: Size, p: Place, side: Side) -> Option<Place>
    requires { On map.w map.h p.x p.y }
    ensures { IsNext map.w map.h p side result }
{
    match side {
        Side::East if p.x + 1 < map.w => Some(Place { x: p.x + 1, y: p.y }),
        Side::West if 0 < p.x => Some(Place { x: p.x - 1, y: p.y }),
        Side::North if p.y + 1 < map.h => Some(Place { x: p.x, y: p.y + 1 }),
        Side::South if 0 < p.y => Some(Place { x: p.x, y: p.y - 1 }),
        _ => None,
    }
}

// 1 where p was closed before the sweep that is being made, and else 0; 0 where there is no place.
fn look(s: Sheet<'_>, p: Option<Place>) -> usize
    requires { OnAt s.map.w s.map.h p }
    ensures { LookedAt s.entry.cells.now s.entry.map.w s.entry.map.h p result }
{
    let Some(p) = p else {
        return 0;
    };
    let b = s.at(p);
    if b != 0 && b < NEW { 1 } else { 0 }
}

// How many neighbours of p were closed before the sweep.
fn beside(s: Sheet<'_>, p: Place) -> usize
    requires { On s.map.w s.map.h p.x p.y }
    ensures { result ≡ around (before s.entry.cells.now) s.entry.map.w s.entry.map.h p.x p.y }
{
    let e = look(s, next(s.map, p, Side::East));
    let o = look(s, next(s.map, p, Side::West));
    let n = look(s, next(s.map, p, Side::North));
    let u = look(s, next(s.map, p, Side::South));
    e + o + n + u
}

// Judges p on the state before the sweep: an open crossing with two or more closed neighbours is
// closed, and put at the queue's end, n. Hands back the new end. Where there is no place nothing is
// done.
fn judge(s: &mut [u8], map: Size, q: &mut [u16], n: usize, p: Option<Place>) -> usize
    requires on { OnAt map.w map.h p }
    requires ready { Ready map.w map.h s.old q.old n }
    ensures { JudgedAt map.w map.h p s.old q.old n s.new q.new result }
{
    let Some(p) = p else {
        return n;
    };
    let i = number_of(map, p);
    if s[i] != 0 || beside(Sheet { cells: s, map }, p) < 2 {
        return n;
    }
    s[i] = NEW;
    q[n] = i as u16;
    n + 1
}

// Judges every neighbour of the crossing of number i.
fn spread(s: &mut [u8], map: Size, q: &mut [u16], n: usize, i: usize) -> usize
    requires { Spreads map.w map.h i s.old q.old n }
    ensures { SpreadFrom map.w map.h i s.old q.old n s.new q.new result }
{
    let p = Place {
        x: i % map.w,
        y: i / map.w,
    };
    let a = judge(s, map, q, n, next(map, p, Side::East));
    let b = judge(s, map, q, a, next(map, p, Side::West));
    let c = judge(s, map, q, b, next(map, p, Side::North));
    judge(s, map, q, c, next(map, p, Side::South))
}

// A sweep from the part of the queue from lo to hi: every crossing that it closes is put behind.
fn sweep(s: &mut [u8], map: Size, q: &mut [u16], lo: usize, hi: usize) -> usize
    requires { SweepsPart map.w map.h lo hi s.old q.old }
    ensures { SweptPart map.w map.h lo hi s.old q.old s.new q.new result }
{
    let mut n = hi;
    for j in lo..hi {
        let i = usize::from(q[j]);
        n = spread(s, map, q, n, i);
    }
    n
}

// The end of a sweep: what it closed, the part of the queue from lo to hi, counts as closed.
fn settle(s: &mut [u8], q: &[u16], lo: usize, hi: usize)
    requires { Settles lo hi s.old q.now }
    ensures { Settled lo hi s.old q.now s.new }
{
    for j in lo..hi {
        s[usize::from(q[j])] = SHUT;
    }
}

// One sweep and its end. Hands back the queue's new end: hi, if the sweep changed nothing.
fn step(s: &mut [u8], map: Size, q: &mut [u16], lo: usize, hi: usize) -> usize
    requires { SweepsPart map.w map.h lo hi s.old q.old }
    ensures { Stepped map.w map.h lo hi s.old q.old s.new q.new result }
{
    let n = sweep(s, map, q, lo, hi);
    settle(s, q, hi, n);
    n
}

// Puts the crossing of number i at the queue's end, n, if it has a rock. Hands back the new end.
fn put(s: &[u8], q: &mut [u16], n: usize, i: usize) -> usize
    requires { Putting i s.now q.old n }
    ensures { Put i s.now q.old q.new result }
{
    if s[i] == 0 {
        return n;
    }
    q[n] = i as u16;
    n + 1
}

// Puts every rock's crossing into the queue. Hands back how many there are.
fn gather(s: &[u8], q: &mut [u16]) -> usize
    requires { Gathers s.now q.old }
    ensures { Gathered s.now q.old q.new result }
{
    let mut n = 0;
    for i in 0..s.len() {
        n = put(s, q, n, i);
    }
    n
}

// Sweep after sweep, until one changes nothing: how many, no count says beforehand. k counts those
// that changed something; the queue from lo to hi has what the last of them closed, and before the
// first all rocks.
fn run(s: &mut [u8], map: Size, q: &mut [u16]) -> usize
    requires { AllSweeps map.w map.h s.old q.old }
    ensures { Sweeping map.w map.h s.old s.new result }
{
    let mut lo = 0usize;
    let mut hi = gather(s, q);
    let mut k = 0usize;
    'sweeps: loop {
        let n = step(s, map, q, lo, hi);
        if n == hi {
            return k;
        }
        k += 1;
        lo = hi;
        hi = n;
    }
}

// Labels a sheet on which the rocks are stamped as 1, all else 0, sweep by sweep: then it holds 0
// where a crossing is open, 1 at a rock, 2 where one is shut. Hands back the number of sweeps that
// changed something. The queue takes two bytes a crossing of the largest map: an array and its end,
// since a queue of the library's would want the heap.
pub fn sweeps(s: &mut [u8], map: Size) -> usize
    requires { Stamped map.w map.h s.old }
    ensures { Sweeping map.w map.h s.old s.new result }
{
    let mut q = [0u16; MOST_CROSSINGS];
    run(s, map, &mut q)
}
