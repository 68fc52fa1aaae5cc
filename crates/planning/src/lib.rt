// A run of the planners' program (document 02, Req 05), step by step: a step tells from the bytes
// at hand what the run prints next, whatever bytes follow them.
#![tactic(auto)]

mod lines; // lines.rt: the lines of one map

ghost use Rattle.std.specs.Prelude.{◌≡◌};
ghost use Rattle.planning.specs.Steps.{begun, Stepped};
ghost use Rattle.planning.specs.Parts.{MayStep, MayStepMap};

use field::{MOST_CROSSINGS, Placing};
use following::Stop;
use lines::{put_four, put_map};
use printing::{put_long, put_refusal};

// "65,535 maps a run"
pub const MOST_MAPS: usize = 65535;

// Room for the longest text of a step: four lines of four numbers.
pub const ROOM: usize = 4 * 4 * printing::NUMBER;

// A run so far: how many maps were read, and the sums over all their lines.
#[derive(Clone, Copy, Debug, Default, PartialEq, Eq)]
pub struct Run {
    pub maps: usize,
    pub sums: Placing,
}

// What a step of a run finds: a map, with how many bytes it has, where its lines end in the output
// and the run after it; the end of the run, with where its last line ends; or that it takes more
// bytes to tell.
#[derive(Clone, Copy, Debug, PartialEq, Eq)]
pub enum Next {
    Map { used: usize, end: usize, run: Run },
    Last { end: usize },
    More,
}

// A run before its first map.
pub fn begin() -> Run
    ensures { result ≡ begun }
{
    Run::default()
}

// A step where bytes are at hand and a map may follow.
fn map_step(src: &[u8], ended: bool, run: Run, out: &mut [u8]) -> Next
    requires { MayStepMap run src.now out.old }
    ensures { Stepped run src.now ended out.old out.new result }
{
    let mut bits = [0u8; MOST_CROSSINGS];
    match following::next_map(src, ended, &mut bits) {
        Ok(Some(piece)) => {
            let told = put_map(out, run.sums, &bits, piece.map);
            let run = Run {
                maps: run.maps + 1,
                sums: told.sums,
            };
            Next::Map {
                used: piece.used,
                end: told.end,
                run,
            }
        }
        Ok(None) => Next::More,
        Err(Stop::Refused(refusal)) => Next::Last {
            end: put_refusal(out, usize::from(refusal.number())),
        },
        Err(Stop::Long) => Next::Last { end: put_long(out) },
    }
}

// One step of a run over the bytes at hand; `ended` says that no bytes follow them. Its text stands
// at the front of the output, and the rest of the output stays. Where bytes may follow, it answers
// More only if there is no byte at hand or they neither end a map nor show a fault.
pub fn step(src: &[u8], ended: bool, run: Run, out: &mut [u8]) -> Next
    requires { MayStep run out.old }
    ensures { Stepped run src.now ended out.old out.new result }
{
    if src.is_empty() {
        if ended {
            return Next::Last {
                end: put_four(out, 0, run.sums),
            };
        }
        return Next::More;
    }
    if run.maps == MOST_MAPS {
        return Next::Last { end: put_long(out) };
    }
    map_step(src, ended, run, out)
}
