// What any program prints: numbers, lines of numbers, bytes and a refusal's line, put into an
// output slice. Each hands back where what it put ends, and leaves the rest of the output as it
// was.
#![tactic(auto)]

ghost use Rattle.std.specs.Prelude.{◌+◌, ◌*◌, ◌≤◌, ◌++◌, length};
ghost use Rattle.printing.specs.Printed.{number_room, refused, long, RefusalLine};
ghost use Rattle.printing.specs.Parts.{Put, Puts, NumberThen, NumbersLine};

// Room for a number and one byte after it: no usize has more than 20 decimal digits.
pub const NUMBER: usize = 21;

// Writes a number and one byte after it from the place `at` on, and hands back where they end.
pub fn put_number(out: &mut [u8], at: usize, v: usize, mark: u8) -> usize
    requires { at + number_room ≤ length out.old }
    ensures { Puts (NumberThen v mark) out.old at out.new result }
{
    let end = at + writer::digit_count(v);
    writer::write_number(&mut out[at..end], v);
    out[end] = mark;
    end + 1
}

// Writes a line of numbers from the place `at` on, with a space between and LF after the last, and
// hands back where it ends.
pub fn put_line(out: &mut [u8], at: usize, numbers: &[usize]) -> usize
    requires some { 1 ≤ length numbers.now }
    requires room { at + length numbers.now * number_room ≤ length out.old }
    ensures { Puts (NumbersLine numbers.now) out.old at out.new result }
{
    let last = numbers.len() - 1;
    let mut end = at;
    for v in &numbers[..last] {
        end = put_number(out, end, *v, b' ');
    }
    put_number(out, end, numbers[last], b'\n')
}

// Writes these bytes at the front of the output, and hands back where they end.
pub fn put_bytes(out: &mut [u8], bytes: &[u8]) -> usize
    requires { length bytes.now ≤ length out.old }
    ensures { Put out.old 0 bytes.now out.new result }
{
    let end = bytes.len();
    out[..end].copy_from_slice(bytes);
    end
}

// Writes a refusal's line: "refused", a space and the number.
pub fn put_refusal(out: &mut [u8], n: usize) -> usize
    requires { length refused + number_room ≤ length out.old }
    ensures { Puts (RefusalLine n) out.old 0 out.new result }
{
    let number = put_bytes(out, b"refused ");
    put_number(out, number, n, b'\n')
}

// Writes the line of an input that is too long: "refused long".
pub fn put_long(out: &mut [u8]) -> usize
    requires { length (refused ++ long) ≤ length out.old }
    ensures { Put out.old 0 (refused ++ long) out.new result }
{
    put_bytes(out, b"refused long\n")
}
