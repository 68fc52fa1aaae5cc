// Closing by whole rows: in a map of bits in which the rocks are set, the bit of every closed
// crossing is set. A crossing closes if two of its four neighbours are closed, for the 64 crossings
// of a word at once. A word grows until a step changes nothing of it, a row is looked at again only
// while a row beside it changes, and the rows are swept to the north and to the south until a sweep
// changes nothing.
//
// The number of looks: a sweep looks at a row only if that row changed or a row beside it did, and
// each change closes a crossing at least, so there are at most three looks to a crossing that
// closes, and one to a row besides.
#![tactic(auto)]

ghost use Rattle.std.specs.Prelude.{◌≡◌, ℕ, ◌*◌, ◌<◌};
ghost use Rattle.rows.specs.Rows.{Rows};
ghost use Rattle.closing.specs.Steps.{Stepped, Spread, Filled};
ghost use Rattle.closing.specs.Growth.{turn_of, GrowingRow, Growing, Sweeps};
ghost use Rattle.closing.specs.Closes.{LookingRow, LookingAll, Looks, Closes};

use field::Size;

// The words on the four sides of a word, from the index of its row and its place there.
const HERE: usize = rows::FIRST;

const NORTH: usize = rows::FIRST + rows::STRIDE;

const SOUTH: usize = rows::FIRST - rows::STRIDE;

const EAST: usize = rows::FIRST + 1;

const WEST: usize = rows::FIRST - 1;

// A mark for each row, and for a row on either side.
const MARKS: usize = field::SIDE + 2;

// One step of growing the word v between the words on its four sides: a bit is set if it was, or if
// the mask has it and two or more of its four neighbours are set. The last bit's east neighbour is
// the first of the word e, the first bit's west neighbour the last of the word w.
fn step(v: u64, n: u64, s: u64, e: u64, w: u64, mask: u64) -> u64
    ensures { Stepped v n s e w mask result }
{
    let a = (v >> 1) | (e << 63);
    let b = (v << 1) | (w >> 63);
    v | (((n & s) | (a & b) | ((n | s) & (a | b))) & mask)
}

// Spreads the set bits of v along those of p, both ways: by 1, 2, 4 to 32 places, so that a run of
// any length takes six turns.
fn spread(v: u64, p: u64) -> u64
    ensures { Spread v p result }
{
    let mut g = v;
    let mut east = p;
    let mut west = p;
    for k in 0..6u32 {
        let d = 1u64 << k;
        g |= (east & (g << d)) | (west & (g >> d));
        east &= east << d;
        west &= west >> d;
    }
    g
}

// Grows a word until a step changes nothing. Most words come to rest after a step or two. In a word
// that does not, runs are closed all along: a crossing with a closed neighbour to the north or
// south closes as soon as the one east or west of it does. So no word takes more than a few turns;
// how many, no count says beforehand.
fn fill(v: u64, n: u64, s: u64, e: u64, w: u64, mask: u64) -> u64
    ensures { Filled v n s e w mask result }
{
    let mut u = v;
    let mut t = step(v, n, s, e, w, mask);
    while t != u {
        let a = step(t, n, s, e, w, mask);
        if a == t {
            return t;
        }
        u = spread(a, (n | s) & mask & !a);
        t = step(u, n, s, e, w, mask);
    }
    t
}

// Grows word j of row y. Hands back the bits that changed. A call of it would cost a row of one word
// as much as the word.
#[inline(always)]
fn grow_word(c: &mut [u64], map: Size, y: usize, j: usize) -> u64
    requires { Growing map.w map.h y j c.old }
    ensures { Sweeps (λ (b a : ℕ). (b ≡ y) × (a ≡ j)) map.w map.h c.old c.new result }
{
    let mask = rows::mask_at(map.w, j);
    let i = y * rows::STRIDE + j;
    let v = c[i + HERE];
    let r = fill(
        v,
        c[i + NORTH],
        c[i + SOUTH],
        c[i + EAST],
        c[i + WEST],
        mask,
    );
    c[i + HERE] = r;
    r ^ v
}

// Whose turn it is, k turns after the first of n: from the first on, or from the last back.
fn turn(back: bool, n: usize, k: usize) -> usize
    requires { k < n }
    ensures { result ≡ turn_of back n k }
{
    if back { n - 1 - k } else { k }
}

// Grows the words of row y one after the other, to the east or back to the west: in place where it is
// called, each way has code of its own.
#[inline(always)]
fn grow_words(c: &mut [u64], map: Size, y: usize, back: bool) -> u64
    requires { GrowingRow map.w map.h y c.old }
    ensures { Sweeps (λ (b a : ℕ). (b ≡ y) × (64 * a < map.w)) map.w map.h c.old c.new result }
{
    let n = rows::words_of(map);
    let mut d = 0u64;
    for k in 0..n {
        d |= grow_word(c, map, y, turn(back, n, k));
    }
    d
}

// Grows row y: to the east, and where that changes something, back to the west. A row of one word
// needs neither loop nor way back.
fn grow_row(c: &mut [u64], map: Size, y: usize) -> u64
    requires { GrowingRow map.w map.h y c.old }
    ensures { Sweeps (λ (b a : ℕ). (b ≡ y) × (64 * a < map.w)) map.w map.h c.old c.new result }
{
    if map.w <= 64 {
        return grow_word(c, map, y, 0);
    }
    let d = grow_words(c, map, y, false);
    if d == 0 {
        return d;
    }
    let e = grow_words(c, map, y, true);
    d | e
}

// Grows row y if it is marked in f. A row that does not change is marked no more; one that does
// marks the rows on either side.
fn look_row(c: &mut [u64], f: &mut [u8], map: Size, y: usize) -> u64
    requires { LookingRow map.w map.h y c.old f.old }
    ensures { Looks (λ (b a : ℕ). (b ≡ y) × (64 * a < map.w)) map.w map.h c.old f.old c.new f.new result }
{
    if f[y + 1] == 0 {
        return 0;
    }
    let d = grow_row(c, map, y);
    if d == 0 {
        f[y + 1] = 0;
        return 0;
    }
    f[y] = 1;
    f[y + 2] = 1;
    d
}

// Looks at every row, to the north or back to the south: each way has code of its own, as above.
// Hands back the bits that changed.
#[inline(always)]
fn sweep(c: &mut [u64], f: &mut [u8], map: Size, back: bool) -> u64
    requires { LookingAll map.w map.h c.old f.old }
    ensures { Looks (λ (b a : ℕ). (b < map.h) × (64 * a < map.w)) map.w map.h c.old f.old c.new f.new result }
{
    let mut d = 0u64;
    for k in 0..map.h {
        d |= look_row(c, f, map, turn(back, map.h, k));
    }
    d
}

// Sweeps until nothing changes: then what is set is closed. No count says beforehand how often.
fn settle(c: &mut [u64], f: &mut [u8], map: Size)
    requires { LookingAll map.w map.h c.old f.old }
    ensures { Closes map.w map.h c.old c.new }
{
    'sweeps: loop {
        if sweep(c, f, map, false) == 0 || sweep(c, f, map, true) == 0 {
            return;
        }
    }
}

// Sets the bit of every closed crossing, where those of the rocks are set. Every row is marked at
// first.
pub fn close(c: &mut [u64], map: Size)
    requires { Rows map.w map.h c.old }
    ensures { Closes map.w map.h c.old c.new }
{
    let mut f = [1u8; MARKS];
    settle(c, &mut f, map);
}
