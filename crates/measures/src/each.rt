// What is done to every crossing by itself, whatever stands beside it: a compiler takes this loop
// many crossings at a time.
ghost use Rattle.std.specs.Prelude.{◌≡◌, ◌<◌, length};
ghost use Rattle.measures.specs.Running.{Nth, OwnOf, Owned};

use field::NO_DISTANCE;

// The end that a line's places are counted from.
#[derive(Clone, Copy, Debug, PartialEq, Eq)]
pub(crate) enum End {
    High,
    Low,
}

impl End {
    // Place k of n, counted from this end.
    pub(crate) fn place(self, n: usize, k: usize) -> usize
        requires { k < n }
        ensures { Nth self n k result }
    {
        match self {
            End::High => n - 1 - k,
            End::Low => k,
        }
    }
}

// What a crossing has by itself: 0 where it is closed, none elsewhere.
fn own_of(mark: u8) -> u16
    ensures { OwnOf mark result }
{
    if mark == 0 { NO_DISTANCE } else { 0 }
}

// The same for every crossing.
pub(crate) fn own(s: &[u8], out: &mut [u16])
    requires { length out.old ≡ length s.now }
    ensures { Owned s.now out.new }
{
    for i in 0..s.len() {
        out[i] = own_of(s[i]);
    }
}
