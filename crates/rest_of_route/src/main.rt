// Runs the drive in the form that document 01 names, `layer::route::drive`. Its promise cannot say
// what the rest of the lent route holds once the filled part is handed back. So the part is let go
// here and the whole buffer is printed, on success and at refusals; what is printed is held to the
// file `stdout`.
#![tactic(auto)]

ghost use Rattle.std.specs.Prelude.{[], ◌∷◌, ◌≤◌};
ghost use Rattle.calls.specs.Rules.{lent_map};
ghost use Rattle.calls.specs.Calls.{RouteCall};

use field::{Marker, Place, TALLEST};
use layer::LentMap;

// The descriptor that every program is started with for what it prints.
const STDOUT: i32 = 1;

// The buffer's slots, and what they hold beforehand.
const SLOTS: usize = 8;

const OLD: u16 = 0xabcd;

// The drive on a map with one rock, for a cart of no clearance. The list is a local array, and only
// this function lends it. The part of the route is handed on.
fn drive<'a>(
    rock: Marker,
    w: usize,
    h: usize,
    from: Place,
    to: Place,
    labels: &mut [u8],
    region: &mut [u8],
    route: &'a mut [u16],
    refusal: &mut u8,
    state: &mut u32,
) -> &'a mut [u16]
    ensures { RouteCall (lent_map (rock ∷ []) 1 w h 0) from.x from.y to.x to.y labels.old region.old route.old state.old labels.new region.new result.now refusal.new state.new route.entry.ref_ptr result.ref_ptr }
{
    let list = [rock];
    let lent = LentMap::new(&list, 1, w, h, 0);
    layer::route::drive(lent, from, to, labels, region, route, refusal, state)
}

// Prints a number, four hexadecimal digits, and a space.
fn print(n: u16) {
    let digits = b"0123456789abcdef";
    let text = [
        digits[usize::from(n / 4096)],
        digits[usize::from(n / 256 % 16)],
        digits[usize::from(n / 16 % 16)],
        digits[usize::from(n % 16)],
        b' ',
    ];
    io::write_all(STDOUT, &text);
}

// Asks for a drive from (0, 0) on a map 4 by 3 with a rock on (2, 0), into the first `lent` slots
// of the buffer. Prints the refusal, the part's length and the state in two halves, then every
// slot, lent or not.
fn ask(to: Place, lent: usize)
    requires { lent ≤ 8 }
{
    let mut labels = [7u8; 12];
    let mut region = [7u8; 12];
    let mut route = [OLD; SLOTS];
    let mut refusal: u8 = 99;
    let mut state: u32 = 0;
    let rock = Marker {
        id: 1,
        x: 2,
        y: 0,
        height: TALLEST,
    };
    let part = drive(
        rock,
        4,
        3,
        Place { x: 0, y: 0 },
        to,
        &mut labels,
        &mut region,
        &mut route[..lent],
        &mut refusal,
        &mut state,
    );
    let length = part.len();
    print(u16::from(refusal));
    print((length % 65536) as u16);
    print((state / 65536 % 65536) as u16);
    print((state % 65536) as u16);
    for slot in route {
        print(slot);
    }
    io::write_all(STDOUT, b"\n");
}

// Drives of four crossings into room to spare and into exactly as much, then refusals 10, 9, 8 and
// 4, then a drive of one crossing.
fn main() {
    ask(Place { x: 2, y: 1 }, 8);
    ask(Place { x: 2, y: 1 }, 4);
    ask(Place { x: 2, y: 1 }, 3);
    ask(Place { x: 3, y: 0 }, 8);
    ask(Place { x: 2, y: 0 }, 8);
    ask(Place { x: 4, y: 0 }, 8);
    ask(Place { x: 0, y: 0 }, 8);
}
