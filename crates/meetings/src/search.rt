// The search for open lines. A line is a column or a row of the rectangle that two places span;
// both are searched in the same way, by the step from line to line and the step along a line.
ghost use Rattle.std.specs.Prelude.{IsTrue, ◌↔◌};
ghost use Rattle.meetings.specs.Search.{OnAxis, SpanOf, Laid, Bare, LaidOut, FirstBare};

// The places from the lower of two to the higher on one axis, both included: where they begin, and
// how many there are.
#[derive(Clone, Copy)]
pub struct Span {
    pub low: usize,
    pub many: usize,
}

impl Span {
    pub fn between(a: usize, b: usize) -> Span
        requires { OnAxis a b }
        ensures { SpanOf a b result }
    {
        Span {
            low: a.min(b),
            many: a.abs_diff(b) + 1,
        }
    }
}

// A line of a sheet: the number of its first crossing, the step from each crossing to the next, and
// how many there are.
#[derive(Clone, Copy)]
pub struct Line {
    pub first: usize,
    pub step: usize,
    pub many: usize,
}

impl Line {
    // Whether no crossing of the line has a mark. It stops at the first mark.
    fn is_open(self, s: &[u8]) -> bool
        requires { Laid s.now self.first self.step self.many }
        ensures { IsTrue result ↔ Bare s.now self.first self.step self.many }
    {
        (0..self.many).all(|k| s[self.first + k * self.step] == 0)
    }
}

// The first without a mark of so many lines: each next one begins `across` after the one before.
pub fn first_open(s: &[u8], line: Line, across: usize, many: usize) -> Option<usize>
    requires { LaidOut s.now line.first across line.step many line.many }
    ensures { FirstBare s.now line.first across line.step many line.many result }
{
    (0..many).find(|j| Line {
        first: line.first + j * across,
        ..line
    }
    .is_open(s))
}
