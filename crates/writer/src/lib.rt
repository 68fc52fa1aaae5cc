// The map writer: raw PBM, P4, from a sheet on which the rocks are stamped. The file's length comes
// first, so that an output too short is found before a byte of it is touched. Then each piece of
// the file is written into its own part of the output.
#![tactic(auto)]

ghost use Rattle.std.specs.Prelude.{◌≡◌, ◌∷◌, [], ◌++◌, ◌≤◌, ◌+◌, length};
ghost use Rattle.writer.specs.Promise.{Writes};
ghost use Rattle.writer.specs.Digits.{DigitCount, digits_of, two_of, header_of};

use field::{Refusal, Size};
use sheets::Sheet;

// How many decimal digits a number has: as often as ten goes into it, and one more. So 0 has one.
pub fn digit_count(v: usize) -> usize
    ensures { DigitCount v result }
{
    if v == 0 {
        return 1;
    }
    v.ilog10() as usize + 1
}

// One decimal digit, of a number below ten.
fn digit(d: usize) -> u8
    requires { d ≤ 9 }
    ensures { result ≡ 48 + d }
{
    b'0' + d as u8
}

// Fills the slice with the lowest digits of a number, as many as it has room for, from its end. By
// index, since a proof knows nothing of what is written through `iter_mut().rev()`.
pub fn write_number(out: &mut [u8], v: usize)
    ensures { out.new ≡ digits_of (length out.old) v }
{
    let mut rest = v;
    for k in (0..out.len()).rev() {
        out[k] = digit(rest % 10);
        rest = rest / 10;
    }
}

// The header's first three bytes: the format's letters and LF.
fn write_letters(out: &mut [u8], letters: &[u8; 2])
    requires { length out.old ≡ 3 }
    ensures { out.new ≡ two_of letters.now ++ 10 ∷ [] }
{
    out[0] = letters[0];
    out[1] = letters[1];
    out[2] = b'\n';
}

// The letters of a format, LF, width, space, height, LF. The slice has just their length; the width
// has a digits and the height b.
pub fn write_header(out: &mut [u8], letters: &[u8; 2], w: usize, a: usize, h: usize, b: usize)
    requires { length out.old ≡ a + b + 5 }
    ensures { out.new ≡ header_of (two_of letters.now) w a h b }
{
    let (first, rest) = out.split_at_mut(3);
    let (width, rest) = rest.split_at_mut(a);
    let (space, rest) = rest.split_at_mut(1);
    let (height, end) = rest.split_at_mut(b);
    write_letters(first, letters);
    write_number(width, w);
    space[0] = b' ';
    write_number(height, h);
    end[0] = b'\n';
}

// Writes the map whose rocks are marked on the sheet. Bytes past the end stay; an output too short
// is left as it is.
pub fn write(s: Sheet<'_>, out: &mut [u8]) -> Result<usize, Refusal>
    ensures { Writes s.entry.map.w s.entry.map.h s.entry.cells.now out.old out.new result }
{
    let Size { w, h, .. } = s.map;
    let a = digit_count(w);
    let b = digit_count(h);
    let start = a + b + 5;
    let end = start + h * ((w + 7) / 8);
    if out.len() < end {
        return Err(Refusal::ShortOutput);
    }
    let (file, _) = out.split_at_mut(end);
    let (header, rows) = file.split_at_mut(start);
    write_header(header, b"P4", w, a, h, b);
    packing::write_rows(rows, s);
    Ok(end)
}
