// Whether a morning sheet may be taken for what it is by itself (document 02, Req 09): every byte
// is 0, 1 or 2, and no crossing shown open has two or more neighbours shown closed. One pass over
// the sheet, row by row. Within a row faults are counted and not looked for: so there is nothing to
// jump over, and a compiler judges many crossings at once.
#![tactic(auto)]

ghost use Rattle.std.specs.Prelude.{◌≡◌, true, ◌↔◌, ◌<◌};
ghost use Rattle.taking.specs.Promise.{Steady};
ghost use Rattle.taking.specs.Faults.{Shown, Judged, RowLent, RowJudged, IsRow, RowAsked, RowAtJudged};

use field::SIDE;
use sheets::Sheet;

// The largest label: "every byte is 0, 1 or 2".
const LARGEST_LABEL: u8 = 2;

// The most neighbours shown closed that an open crossing may have: "no crossing shown open has two
// or more".
const MOST_CLOSED: u8 = 1;

// 1 for a byte that shows a crossing closed, 0 for one that shows it open.
fn shown(b: u8) -> u8
    ensures { Shown b result }
{
    u8::from(b != 0)
}

// 1 for a crossing at fault, 0 for any other: its byte, and those of its four neighbours, 0 where
// it has none.
fn fault(here: u8, east: u8, south: u8, west: u8, north: u8) -> u8
    ensures { Judged here east south west north result }
{
    let around = shown(east) + shown(south) + shown(west) + shown(north);
    u8::from(LARGEST_LABEL < here || here == 0 && MOST_CLOSED < around)
}

// How many crossings of a row are at fault, from the row and those south and north of it. The last
// crossing has no east neighbour, the first no west one.
fn row_faults(south: &[u8], here: &[u8], north: &[u8]) -> u16
    requires { RowLent south.now here.now north.now }
    ensures { RowJudged south.now here.now north.now result }
{
    let last = here.len() - 1;
    let mut faults: u16 = 0;
    let mut west: u8 = 0;
    for x in 0..last {
        faults += u16::from(fault(here[x], here[x + 1], south[x], west, north[x]));
        west = here[x];
    }
    faults + u16::from(fault(here[last], 0, south[last], west, north[last]))
}

// Row y of a sheet.
fn row_of<'a>(s: Sheet<'a>, y: usize) -> &'a [u8]
    requires { y < s.map.h }
    ensures { IsRow s.entry.map.w s.entry.map.h s.entry.cells.now y result.now }
{
    let start = y * s.map.w;
    &s.cells[start..start + s.map.w]
}

// The faults of row y of a sheet. `none` is a row of zeros: past the edge nothing is shown closed.
fn faults_at(s: Sheet<'_>, none: &[u8], y: usize) -> u16
    requires { RowAsked s.map.w s.map.h none.now y }
    ensures { RowAtJudged s.entry.map.w s.entry.map.h s.entry.cells.now y result }
{
    let south = if y == 0 { none } else { row_of(s, y - 1) };
    let north = if y + 1 < s.map.h {
        row_of(s, y + 1)
    } else {
        none
    };
    row_faults(south, row_of(s, y), north)
}

// Whether the sheet by itself has no fault.
pub fn steady(s: Sheet<'_>) -> bool
    ensures { (result ≡ true) ↔ Steady s.entry.map.w s.entry.map.h s.entry.cells.now }
{
    let zeros = [0u8; SIDE];
    let none = &zeros[..s.map.w];
    for y in 0..s.map.h {
        if faults_at(s, none, y) != 0 {
            return false;
        }
    }
    true
}
