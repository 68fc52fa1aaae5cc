// The letters and the header of a file: "Then a separator, the width, a separator, the height,
// exactly one blank byte". How many numbers a header has, its caller says. Each part says where it
// ends, so that the next begins there.
#![tactic(auto)]

ghost use Rattle.std.specs.Prelude.{◌≡◌, true, false, ◌↔◌, ℕ, ◌≤◌, length, drop};
ghost use Rattle.mapfile.specs.Header.{Blank, LineEnd, Digit};
ghost use Rattle.mapfile.specs.HeaderWorking.{after_items, after_comment, number_from, next_number, last_blank};
ghost use Rattle.header.specs.HeaderParts.{GapRead, gap_end, gap_at, Past, MaySkip, NumeralRead, numeral_end, HeadRead};
ghost use Rattle.header.specs.Letters.{SameTwo};

// "A number is 1 to 9 decimal digits."
const MOST_DIGITS: usize = 9;

// A number and where it ends.
#[derive(Clone, Copy, Debug, PartialEq, Eq)]
struct Numeral {
    value: usize,
    end: usize,
}

// Whether the bytes begin with these two, the letters of a format.
pub fn begins(src: &[u8], two: &[u8; 2]) -> bool
    ensures { (result ≡ true) ↔ SameTwo src.now two.now }
{
    src.starts_with(two)
}

// "A blank is a space, TAB, CR or LF." It is no `matches!`: tried, and with that a P1 raster, which
// asks this of each byte that is no digit, is read a quarter slower.
pub fn is_blank(b: u8) -> bool
    ensures { (result ≡ true) ↔ Blank b }
{
    b == b' ' || b == b'\t' || b == b'\r' || b == b'\n'
}

// CR or LF, either of which ends a comment.
fn is_line_end(b: u8) -> bool
    ensures { (result ≡ true) ↔ LineEnd b }
{
    matches!(b, b'\r' | b'\n')
}

// The end of a separator that ends at this place: it is one if a blank was seen in it. 0 says that
// there is none.
fn gap_end(at: usize, seen: bool) -> usize
    requires { Past at seen }
    ensures { gap_at result ≡ gap_end at seen }
{
    if seen { at } else { 0 }
}

// Skips blanks, and at a # hands on to the comment skipper: so over all items of a separator.
// `seen`: a blank was among the items before. The answer is the separator's end, or 0 if there is
// none: a blank stands before the end, so that no separator ends at 0.
//
// The skippers call each other as the last thing that they do, and the compiler makes jumps of
// these calls, so that many comments take no more stack than one. It can do so while all that a
// call hands over goes in registers: hence the answer is a number and no `Option`, and the bytes
// are lent by a reference to the slice.
#[cycle(skip_blanks_skip_comment)]
fn skip_blanks(src: &&[u8], at: usize, seen: bool) -> usize
    requires { MaySkip src.now.now at seen }
    ensures { GapRead src.now.now (after_items (drop at src.now.now) seen) (gap_at result) }
{
    let bytes = *src;
    let mut any = seen;
    for i in at..bytes.len() {
        if bytes[i] == b'#' {
            return skip_comment(src, i + 1, any);
        }
        if !is_blank(bytes[i]) {
            return gap_end(i, any);
        }
        any = true;
    }
    gap_end(bytes.len(), any)
}

// Skips a comment through the CR or LF that ends it, and hands on to the blank skipper. A comment
// that never ends makes no separator.
#[cycle(skip_blanks_skip_comment)]
fn skip_comment(src: &&[u8], at: usize, seen: bool) -> usize
    requires { MaySkip src.now.now at seen }
    ensures { GapRead src.now.now (after_comment (drop at src.now.now) seen) (gap_at result) }
{
    let bytes = *src;
    for i in at..bytes.len() {
        if is_line_end(bytes[i]) {
            return skip_blanks(src, i + 1, seen);
        }
    }
    0
}

// Where the separator ends that begins at this place: "one or more items, each a blank or a
// comment, at least one of them a blank".
fn separator(src: &[u8], at: usize) -> Option<usize>
    requires { at ≤ length src.now }
    ensures { GapRead src.now (after_items (drop at src.now) false) result }
{
    match skip_blanks(&src, at, false) {
        0 => None,
        end => Some(end),
    }
}

// Whether the byte is a decimal digit.
fn is_digit(b: u8) -> bool
    ensures { (result ≡ true) ↔ Digit b }
{
    b.is_ascii_digit()
}

// A number of so many digits that ends at this place: one if it has a digit.
fn numeral_end(digits: usize, value: usize, end: usize) -> Option<Numeral>
    ensures { result ≡ numeral_end digits value end }
{
    if digits == 0 {
        return None;
    }
    Some(Numeral { value, end })
}

// "A number is 1 to 9 decimal digits, leading zeros allowed." It ends before the first byte that is
// no digit.
fn number(src: &[u8], at: usize) -> Option<Numeral>
    requires { at ≤ length src.now }
    ensures { NumeralRead src.now (number_from (drop at src.now) 0 0) result }
{
    let mut v: usize = 0;
    for i in at..src.len() {
        let b = src[i];
        if !is_digit(b) {
            return numeral_end(i - at, v, i);
        }
        if i - at == MOST_DIGITS {
            return None;
        }
        v = v * 10 + usize::from(b - b'0');
    }
    numeral_end(src.len() - at, v, src.len())
}

// A separator and the number after it.
fn next_number(src: &[u8], at: usize) -> Option<Numeral>
    requires { at ≤ length src.now }
    ensures { NumeralRead src.now (next_number (drop at src.now)) result }
{
    let start = separator(src, at)?;
    number(src, start)
}

// The "exactly one blank byte" after the height.
fn one_blank(src: &[u8], at: usize) -> Option<usize>
    requires { at ≤ length src.now }
    ensures { GapRead src.now (last_blank (drop at src.now)) result }
{
    if at < src.len() && is_blank(src[at]) {
        return Some(at + 1);
    }
    None
}

// A header of as many numbers as the slice has, two in a map file: "Then a separator, the width, a
// separator, the height, exactly one blank byte, the raster." The answer is where the raster
// begins; or there is no header, and the slice holds the numbers that were read before the fault,
// and nothing of use.
pub fn header(src: &[u8], at: usize, numbers: &mut [usize]) -> Option<usize>
    requires { at ≤ length src.now }
    ensures { HeadRead src.now at numbers.new result }
{
    let mut i = at;
    for n in numbers.iter_mut() {
        let next = next_number(src, i)?;
        *n = next.value;
        i = next.end;
    }
    one_blank(src, i)
}
