// Words of 64 bits and the bytes of a sheet: a part of a sheet of 0 and 1 read into a word, labels
// written from words, eight bytes at a time wherever eight are left; the low bits of a word, and
// how many bits of it are set.
#![tactic(auto)]

ghost use Rattle.std.specs.Prelude.{◌≡◌, ◌+◌, ◌*◌, ◌/◌, ◌^◌, ◌<◌, ◌≤◌, length};
ghost use Rattle.bits.specs.Bit.{Mask};
ghost use Rattle.words.specs.Words.{Ones, ReadingWord, Reads, WrittenAt};
ghost use Rattle.words.specs.Eights.{gathered, spread_out, LookingAt, LookedFour, LookedEight, Puts, Bytes};

// The low n bits.
#[tactic(auto, using(bits::specs::Carries::mask_law))]
pub fn mask_of(n: usize) -> u64
    requires { (1 ≤ n) × (n ≤ 64) }
    ensures { Mask n result }
{
    u64::MAX >> (64 - n)
}

// The number of set bits.
pub fn ones_of(v: u64) -> usize
    ensures { Ones v result }
{
    v.count_ones() as usize
}

// Eight bits that stand four apart, gathered side by side: the product has each of them at its
// place, since no two of its terms share a bit.
#[tactic(auto, unfolding(crate::specs::Eights::gathered))]
fn gather(v: u64) -> u64
    requires { v < 2 ^ 32 }
    ensures { result ≡ gathered v }
{
    ((v * 0x0020_4081) >> 21) & 255
}

// The low eight bits, spread out into eight bytes of 0 and 1: the same three steps back.
#[tactic(auto, unfolding(crate::specs::Eights::spread_out))]
fn spread(v: u64) -> u64
    ensures { result ≡ spread_out v }
{
    let a = (v | (v << 28)) & 0x0000_000f_0000_000f;
    let b = (a | (a << 14)) & 0x0003_0003_0003_0003;
    (b | (b << 7)) & 0x0101_0101_0101_0101
}

// Eight bytes in a word: 1 for a bit of a, 2 for a bit of b.
#[tactic(auto, using(crate::proofs::Laws::Eights::bytes_law, crate::proofs::Laws::Eights::spread_most))]
fn both(a: u64, b: u64) -> u64
    requires { (a < 256) × (b < 256) }
    ensures { Bytes a b result }
{
    spread(a) + 2 * spread(b)
}

// Four bytes of a sheet of 0 and 1 from number i on, as one number. A load of four bytes is what the
// machine makes of it.
fn four(s: &[u8], i: usize) -> u64
    requires { LookingAt i 4 s.now }
    ensures { LookedFour i s.now result }
{
    u64::from(u32::from_le_bytes([s[i], s[i + 1], s[i + 2], s[i + 3]]))
}

// Eight bytes of a sheet of 0 and 1 from number i on, as bits. The bytes of the second four go
// between those of the first.
fn eight(s: &[u8], i: usize) -> u64
    requires { LookingAt i 8 s.now }
    ensures { LookedEight i s.now result }
{
    let a = four(s, i);
    let b = four(s, i + 4);
    gather(a + 16 * b)
}

// Writes the eight bytes of a word from number i on, the lowest first.
#[tactic(auto, using(crate::proofs::Laws::Eights::put_eight_law))]
fn put_eight(s: &mut [u8], i: usize, v: u64)
    requires { i + 8 ≤ length s.old }
    ensures { Puts i v 8 s.old s.new }
{
    s[i..i + 8].copy_from_slice(&v.to_le_bytes());
}

// The n bytes of a sheet of 0 and 1 from number i on, as bits, but for the last n % 8.
fn read_eights(s: &[u8], i: usize, n: usize) -> u64
    requires { ReadingWord i n s.now }
    ensures { Reads i s.now (n / 8 * 8) result }
{
    let mut v = 0u64;
    for x in (0..n / 8 * 8).step_by(8) {
        v |= eight(s, i + x) << x;
    }
    v
}

// The n bytes of a sheet of 0 and 1 from number i on, as bits.
#[tactic(auto, using(crate::proofs::Laws::Words::reads_next))]
pub fn read_word(s: &[u8], i: usize, n: usize) -> u64
    requires { ReadingWord i n s.now }
    ensures { Reads i s.now n result }
{
    let mut v = read_eights(s, i, n);
    for x in n / 8 * 8..n {
        v |= u64::from(s[i + x]) << x;
    }
    v
}

// Writes n bytes from number i on, 1 for a bit of ro, 2 for a bit of sh, but for the last n % 8.
fn write_eights(s: &mut [u8], i: usize, n: usize, ro: u64, sh: u64)
    requires { (i + n ≤ length s.old) × (n ≤ 64) }
    ensures { WrittenAt i ro sh s.old s.new (n / 8 * 8) }
{
    for x in (0..n / 8 * 8).step_by(8) {
        put_eight(s, i + x, both((ro >> x) & 255, (sh >> x) & 255));
    }
}

// Writes n bytes from number i on: 1 for a bit of ro, 2 for a bit of sh.
pub fn write_word(s: &mut [u8], i: usize, n: usize, ro: u64, sh: u64)
    requires { (i + n ≤ length s.old) × (n ≤ 64) }
    ensures { WrittenAt i ro sh s.old s.new n }
{
    write_eights(s, i, n, ro, sh);
    for x in n / 8 * 8..n {
        s[i + x] = (((ro >> x) & 1) + 2 * ((sh >> x) & 1)) as u8;
    }
}
