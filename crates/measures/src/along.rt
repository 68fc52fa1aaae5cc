// Distances to the east and to the west: one running number goes along each row, from the edge on.
// Up to the first closed crossing, and where closed ones follow it, what each crossing has by itself
// is right already: these are passed four at a time.
ghost use Rattle.std.specs.Prelude.{◌≡◌, ◌+◌, ◌-◌, ◌<◌, ◌≤◌};
ghost use Rattle.measures.specs.Running.{Sound, on_to, lowest_of, OwnSheet, InRow, OnLineFrom, Past, Met, Ran, RowRun, RowsRun};

use crate::each::End;
use crate::fours::all_are;
use field::{NO_DISTANCE, Place, Size};

// A line of n crossings on a sheet, counted from one end on: its first crossing has the number
// `start`.
#[derive(Clone, Copy)]
struct Line {
    end: End,
    start: usize,
    n: usize,
    ghost sound: { Sound end start n },
}

impl Line {
    // The number of place k.
    fn number(self, k: usize) -> usize
        requires { k < self.n }
        ensures { result ≡ on_to self.end self.start k }
    {
        match self.end {
            End::High => self.start - k,
            End::Low => self.start + k,
        }
    }

    // The lowest number of the four places from place k on.
    fn lowest(self, k: usize) -> usize
        requires { k + 4 ≤ self.n }
        ensures { result ≡ lowest_of self.end self.start k }
    {
        match self.end {
            End::High => self.start - (k + 3),
            End::Low => self.start + k,
        }
    }

    // Passes the places from one on that all have m, four at a time: the place that comes then. A
    // `while`, as the place at which it stops is the answer and each turn takes four.
    fn past(self, from: usize, m: u16, out: &[u16]) -> usize
        requires { OnLineFrom self.end self.start from self.n out.now }
        ensures { Past m self.end self.start from self.n out.now result }
    {
        let mut k = from;
        while k + 4 <= self.n {
            if !all_are(out, self.lowest(k), m) {
                return k;
            }
            k += 4;
        }
        k
    }

    // The first closed place from one on, or the end. A `while` that hands on where it stopped: a
    // `for` here, or an `Option`, was tried, and `measure` took a third longer on a map without rocks.
    fn met(self, from: usize, out: &[u16]) -> usize
        requires { OnLineFrom self.end self.start from self.n out.now }
        ensures { Met self.end self.start from self.n out.now result }
    {
        let mut k = from;
        while k < self.n {
            if out[self.number(k)] == 0 {
                return k;
            }
            k += 1;
        }
        k
    }

    // The running number along the line, from a closed crossing on, or from behind it. What an open
    // crossing has by itself has every bit set and lets the number through, one more; what a closed
    // one has is 0, and sets it back.
    fn run(self, from: usize, out: &mut [u16])
        requires { OnLineFrom self.end self.start from self.n out.old }
        ensures { Ran self.end (on_to self.end self.start from) (self.n - from) out.old out.new }
    {
        let mut last = 0u16;
        for k in from..self.n {
            let i = self.number(k);
            last = (last + 1) & out[i];
            out[i] = last;
        }
    }
}

// Row y, from the edge on.
fn row(map: Size, end: End, y: usize, out: &mut [u16])
    requires { InRow map.w map.h y out.old }
    ensures { RowRun map.w map.h end y out.old out.new }
{
    let x = end.place(map.w, 0);
    let start = sheets::number_of(map, Place { x, y });
    let line = Line {
        end,
        start,
        n: map.w,
    };
    let a = line.past(0, NO_DISTANCE, out);
    let b = line.met(a, out);
    if b == map.w {
        return;
    }
    let c = line.past(b, 0, out);
    line.run(c, out);
}

// Every row.
pub(crate) fn rows(map: Size, end: End, out: &mut [u16])
    requires { OwnSheet map.w map.h out.old }
    ensures { RowsRun map.w map.h end out.old out.new }
{
    for y in 0..map.h {
        row(map, end, y, out);
    }
}
