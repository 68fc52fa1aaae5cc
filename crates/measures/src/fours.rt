// Four numbers of a sheet at a time.
ghost use Rattle.std.specs.Prelude.{◌≡◌, true, ◌+◌, ◌≤◌, length};
ghost use Rattle.measures.specs.Fours.{Joined, AllAre};

// The four numbers from i on, as one word. A load of eight bytes is what the machine makes of it.
fn four(s: &[u16], i: usize) -> u64
    requires { i + 4 ≤ length s.now }
    ensures { Joined i s.now result }
{
    u64::from(s[i])
        + 0x1_0000 * u64::from(s[i + 1])
        + 0x1_0000_0000 * u64::from(s[i + 2])
        + 0x1_0000_0000_0000 * u64::from(s[i + 3])
}

// Whether the four numbers from i on are all n.
pub(crate) fn all_are(s: &[u16], i: usize, n: u16) -> bool
    requires { i + 4 ≤ length s.now }
    ensures { result ≡ true → AllAre i n s.now }
{
    four(s, i) == 0x1_0001_0001_0001 * u64::from(n)
}
