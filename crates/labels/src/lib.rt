// Labelling a sheet on which the rocks are stamped, by rows of bits: the rocks are read into bits,
// the closed crossings' bits are set, the labels are written, and the numbers come from counting
// bits.
#![tactic(auto)]

ghost use Rattle.std.specs.Prelude.{◌+◌, ◌*◌, ◌<◌, ◌≤◌, ◌^◌};
ghost use Rattle.rows.specs.Layout.{stride, slots};
ghost use Rattle.labels.specs.Promise.{Stamped, Labels};
ghost use Rattle.labels.specs.Counting.{Summing, Summed, CountedWord, CountedRow, Counted};
ghost use Rattle.labels.specs.Memory.{Ready};

use field::{Labelled, Size};
use rows::{Planes, SLOTS};
use sheets::Sheet;

// The words south and west of a word, from the index of its row and its place there.
const SOUTH: usize = rows::FIRST - rows::STRIDE;

const WEST: usize = rows::FIRST - 1;

// Few rows, and some: as many as a row of one word has crossings; and the words of as many rows.
const FEW: usize = 16;

const FEW_SLOTS: usize = (FEW + 2) * rows::STRIDE;

const SOME: usize = 64;

const SOME_SLOTS: usize = (SOME + 2) * rows::STRIDE;

// No crossings.
const NONE: Labelled = Labelled {
    rocks: 0,
    shut: 0,
    groups: 0,
};

// The three numbers of two parts of a map together.
fn plus(a: Labelled, b: Labelled) -> Labelled
    requires { Summing a b }
    ensures { Summed a b result }
{
    Labelled {
        rocks: a.rocks + b.rocks,
        shut: a.shut + b.shut,
        groups: a.groups + b.groups,
    }
}

// The three numbers of word j of row y: the rocks, the closed ones without a rock, and the corners. A
// group is counted at its corner, the one closed crossing of it with neither a closed west nor a
// closed south neighbour.
fn count_word(p: Planes<'_>, y: usize, j: usize) -> Labelled
    requires { (y < p.map.h) × (64 * j < p.map.w) }
    ensures { CountedWord y j p.entry.rock.now p.entry.closed.now result }
{
    let i = y * rows::STRIDE + j;
    let ro = p.rock[i + rows::FIRST];
    let cl = p.closed[i + rows::FIRST];
    let so = p.closed[i + SOUTH];
    let we = p.closed[i + WEST];
    Labelled {
        rocks: words::ones_of(ro),
        shut: words::ones_of(cl & !ro),
        groups: words::ones_of(cl & !((cl << 1) | (we >> 63)) & !so),
    }
}

// The three numbers of row y, word by word. A row of no more than 64 crossings is one word, and
// meets no loop.
fn count_row(p: Planes<'_>, y: usize) -> Labelled
    requires { y < p.map.h }
    ensures { CountedRow p.entry.map.w y p.entry.rock.now p.entry.closed.now result }
{
    if p.map.w <= 64 {
        return count_word(p, y, 0);
    }
    let mut sum = NONE;
    for j in 0..rows::words_of(p.map) {
        sum = plus(sum, count_word(p, y, j));
    }
    sum
}

// The three numbers of a map.
fn count(p: Planes<'_>) -> Labelled
    ensures { Counted p.entry.map.w p.entry.map.h p.entry.rock.now p.entry.closed.now result }
{
    let mut sum = NONE;
    for y in 0..p.map.h {
        sum = plus(sum, count_row(p, y));
    }
    sum
}

// Labels a sheet whose rocks are read into rock, and into c as well.
fn label_read(s: &mut [u8], map: Size, rock: &[u64], c: &mut [u64]) -> Labelled
    requires { Ready map.w map.h s.old rock.now c.old }
    ensures { Labels map.w map.h s.old s.new result }
{
    closing::close(c, map);
    let p = Planes {
        map,
        rock,
        closed: c,
    };
    rows::put(s, p);
    count(p)
}

// Labels by rows of bits, in N words of working memory, as many as the map needs or more: clearing
// and copying more than a small map needs would be most of the work on it.
fn label_in<const N: usize>(s: &mut [u8], map: Size) -> Labelled
    requires stamped { Stamped map.w map.h s.old }
    requires room { (map.h + 2) * stride ≤ N }
    requires few { N ≤ slots }
    ensures { Labels map.w map.h s.old s.new result }
{
    let mut rock = [0u64; N];
    rows::read(Sheet { cells: s, map }, &mut rock);
    let mut c = rock;
    label_read(s, map, &rock, &mut c)
}

// Labels a sheet on which the rocks are stamped as 1, all else 0: then it holds 0 where a crossing
// is open, 1 at a rock, 2 where one is shut. Hands back the numbers of rocks' crossings, shut
// crossings and groups.
pub fn label(s: &mut [u8], map: Size) -> Labelled
    requires { Stamped map.w map.h s.old }
    ensures { Labels map.w map.h s.old s.new result }
{
    if map.h <= FEW {
        return label_in::<FEW_SLOTS>(s, map);
    }
    if map.h <= SOME {
        return label_in::<SOME_SLOTS>(s, map);
    }
    label_in::<SLOTS>(s, map)
}
