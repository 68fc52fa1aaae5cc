// A map as rows of bits: where each crossing's bit stands among the words, a sheet of rocks read
// into them, and the labels written from them.
//
// A row has WORDS words of 64 bits, and a word of zeros behind them: it is the east end of its row
// and the west end of the next. A row of zeros stands south of the map and one north of it. So no
// edge needs a branch, and no bit runs over from one row into the next. The distance from row to
// row is the same for every map, whatever its width: then every index is a sum of small multiples.
// How many words are in use goes by the width.
#![tactic(auto)]

ghost use Rattle.std.specs.Prelude.{ℕ, ◌+◌, ◌*◌, ◌<◌, ◌≤◌, ◌≡◌, length};
ghost use Rattle.rows.specs.Layout.{words_of};
ghost use Rattle.rows.specs.Rows.{Long, WidthAt, MaskAt};
ghost use Rattle.rows.specs.Sheets.{Before, Reading, ReadingRow, ReadingAt, Drawing, Drawn, Putting, PuttingRow, PuttingWord, Wrote};

use field::Size;
use sheets::Sheet;

// The words of the widest row: SIDE crossings, 64 to a word.
pub const WORDS: usize = (field::SIDE + 63) / 64;

// From a word to the word north of it.
pub const STRIDE: usize = WORDS + 1;

// The first row's first word, behind a row of zeros and a zero word.
pub const FIRST: usize = STRIDE + 1;

// All words of the largest map.
pub const SLOTS: usize = (field::SIDE + 2) * STRIDE;

// Two maps of bits of one map: the rocks, and the closed crossings.
#[derive(Clone, Copy)]
pub struct Planes<'a> {
    pub map: Size,
    pub rock: &'a [u64],
    pub closed: &'a [u64],
    pub ghost long_rock: { Long map.h rock.now },
    pub ghost long_closed: { Long map.h closed.now },
}

// How many words of a row are in use.
pub fn words_of(map: Size) -> usize
    ensures { result ≡ words_of map.w }
{
    (map.w + 63) / 64
}

// How many crossings of a row stand in its word j.
fn width_at(w: usize, j: usize) -> usize
    requires { 64 * j < w }
    ensures { WidthAt w j result }
{
    (w - 64 * j).min(64)
}

// The bits of word j that are crossings.
#[tactic(auto, using(crate::proofs::Laws::Widths::mask_at))]
pub fn mask_at(w: usize, j: usize) -> u64
    requires { 64 * j < w }
    ensures { MaskAt w j result }
{
    words::mask_of(width_at(w, j))
}

// Reads word j of row y, of a sheet of 0 and 1.
fn read_at(s: Sheet<'_>, y: usize, j: usize, c: &mut [u64])
    requires { ReadingAt s.map.w s.map.h y j s.cells.now c.old }
    ensures { Drawing (Before y (j + 1)) s.entry.map.w s.entry.map.h s.entry.cells.now c.new × (length c.new ≡ length c.old) }
{
    let w = s.map.w;
    let n = width_at(w, j);
    c[y * STRIDE + j + FIRST] = words::read_word(s.cells, y * w + 64 * j, n);
}

// Reads row y of a sheet of 0 and 1 into the words. The first word goes by itself: a row of no more
// than 64 crossings has no other, and meets no loop.
fn read_row(s: Sheet<'_>, y: usize, c: &mut [u64])
    requires { ReadingRow s.map.w s.map.h y s.cells.now c.old }
    ensures { Drawing (λ (b a : ℕ). b < y + 1) s.entry.map.w s.entry.map.h s.entry.cells.now c.new × (length c.new ≡ length c.old) }
{
    read_at(s, y, 0, c);
    for j in 1..words_of(s.map) {
        read_at(s, y, j, c);
    }
}

// Reads a sheet of 0 and 1 into words that are all zero.
pub fn read(s: Sheet<'_>, c: &mut [u64])
    requires { Reading s.map.h s.cells.now c.old }
    ensures { Drawn s.entry.map.w s.entry.map.h s.entry.cells.now c.new }
{
    for y in 0..s.map.h {
        read_row(s, y, c);
    }
}

// Writes the labels of word j of row y, which has n crossings. The rocks stand on the sheet already,
// so a word with nothing shut is not written.
fn put_word(s: &mut [u8], p: Planes<'_>, y: usize, j: usize, n: usize)
    requires { PuttingWord p.map.w p.map.h y j n p.rock.now p.closed.now s.old }
    ensures { Wrote (λ (b a : ℕ). (b ≡ y) × (a ≡ j)) p.entry.map.w p.entry.map.h p.entry.rock.now p.entry.closed.now s.old s.new }
{
    let i = y * STRIDE + j;
    let ro = p.rock[i + FIRST];
    let sh = p.closed[i + FIRST] & !ro;
    if sh == 0 {
        return;
    }
    words::write_word(s, y * p.map.w + 64 * j, n, ro, sh);
}

// Writes the labels of row y, whose first word has n crossings. A row of no more than 64 crossings
// is that word, and meets no loop.
fn put_row(s: &mut [u8], p: Planes<'_>, y: usize, n: usize)
    requires { PuttingRow p.map.w p.map.h y n p.rock.now p.closed.now s.old }
    ensures { Wrote (λ (b a : ℕ). (b ≡ y) × (64 * a < p.entry.map.w)) p.entry.map.w p.entry.map.h p.entry.rock.now p.entry.closed.now s.old s.new }
{
    let w = p.map.w;
    if w <= 64 {
        put_word(s, p, y, 0, n);
        return;
    }
    for j in 0..words_of(p.map) {
        put_word(s, p, y, j, width_at(w, j));
    }
}

// Writes the labels on a sheet on which the rocks are stamped. How many crossings the first word has
// is worked out here, before a test of the width: so the compiler sees that it is 64 at most, and
// writes a word without a loop.
pub fn put(s: &mut [u8], p: Planes<'_>)
    requires { Putting p.map.w p.map.h p.rock.now p.closed.now s.old }
    ensures { Wrote (λ (b a : ℕ). (b < p.entry.map.h) × (64 * a < p.entry.map.w)) p.entry.map.w p.entry.map.h p.entry.rock.now p.entry.closed.now s.old s.new }
{
    let n = width_at(p.map.w, 0);
    for y in 0..p.map.h {
        put_row(s, p, y, n);
    }
}
