// How well is this depot placed? Reads P4 maps one after another from standard input and prints a
// line for each map and each corner as depot, then the sums; or why a map is refused.
#![tactic(auto)]

ghost use Rattle.std.specs.Prelude.{◌≤◌, length};
ghost use Rattle.depots.specs.States.{Keeping, Kept, Buffers, Standing, Filled, HandedOver, Finished, MayGoOn, Advanced, MayStep, StepMade};

use mapfile::MOST_BYTES;
use planning::{Next, ROOM, Run};

// As many bytes as a map may have and one more, so that a longer one is told from the longest.
const INPUT: usize = MOST_BYTES + 1;

// The text is gathered and handed over in large pieces: past so many bytes, and there is room for a
// step more.
const TEXT: usize = 65536;

const OUTPUT: usize = TEXT + ROOM;

// The descriptors that every program is started with.
const STDIN: i32 = 0;

const STDOUT: i32 = 1;

const STDERR: i32 = 2;

// Where the program stands: the run so far; the bytes at hand, which stand in the input buffer from
// `from` up to `held`; whether the input ends there; how much text is gathered; and whether to go
// on.
#[derive(Clone, Copy, Debug, PartialEq, Eq)]
struct State {
    run: Run,
    from: usize,
    held: usize,
    ended: bool,
    text: usize,
    going: bool,
}

// Hands over the text, and answers whether that went well. A program has no exit status to tell a
// closed output by, so it says it on standard error.
fn print(text: &[u8]) -> bool {
    let written = io::write_all(STDOUT, text);
    if !written {
        io::write_all(STDERR, b"depots: the text could not be written\n");
    }
    written
}

// Moves the bytes at hand to the front of the buffer, and hands back how many they are.
fn keep(src: &mut [u8], from: usize, held: usize) -> usize
    requires { Keeping src.old from held }
    ensures { Kept src.old from held src.new result }
{
    src.copy_within(from..held, 0);
    held - from
}

// Reads until the buffer is full or the input ends.
fn read_on(src: &mut [u8], s: State) -> State
    requires { Standing (length src.old) s }
    ensures { Filled (length src.old) s result }
{
    let left = keep(src, s.from, s.held);
    let held = left + io::read_full(STDIN, &mut src[left..]);
    State {
        from: 0,
        held,
        ended: held < src.len(),
        ..s
    }
}

// Hands the text over once there is much of it.
fn hand_over(out: &[u8], s: State) -> State
    requires { s.text ≤ length out.now }
    ensures { HandedOver s result }
{
    if s.text <= TEXT {
        return s;
    }
    State {
        text: 0,
        going: print(&out[..s.text]),
        ..s
    }
}

// The run has ended: hands over all of its text.
fn finish(out: &[u8], s: State, end: usize) -> State
    requires { end ≤ length out.now }
    ensures { Finished s result }
{
    print(&out[..end]);
    State {
        text: 0,
        going: false,
        ..s
    }
}

// A map was told: its bytes are used, and its lines are gathered.
fn go_on(out: &[u8], s: State, used: usize, end: usize, run: Run) -> State
    requires { MayGoOn (length out.now) s used end }
    ensures { Advanced s used run result }
{
    let told = State {
        run,
        from: s.from + used,
        text: s.text + end,
        ..s
    };
    hand_over(out, told)
}

// One step of the run, over the bytes at hand.
fn turn(src: &mut [u8], out: &mut [u8], s: State) -> State
    requires { MayStep src.old out.old s }
    ensures { StepMade s result }
{
    let text = s.text;
    let next = planning::step(&src[s.from..s.held], s.ended, s.run, &mut out[text..]);
    match next {
        Next::Map { used, end, run } => go_on(out, s, used, end, run),
        Next::Last { end } => finish(out, s, text + end),
        Next::More => read_on(src, s),
    }
}

// All steps of the run. It ends: with each turn a map is read, or the buffer is filled, after which
// a map can be told, or it is the last. How many turns that takes is the input's to say, so the
// loop has no count.
fn go(src: &mut [u8], out: &mut [u8])
    requires { Buffers src.old out.old }
{
    let mut s = State {
        run: planning::begin(),
        from: 0,
        held: 0,
        ended: false,
        text: 0,
        going: true,
    };
    while s.going {
        s = turn(src, out, s);
    }
}

fn main() {
    let mut src = [0u8; INPUT];
    let mut out = [0u8; OUTPUT];
    go(&mut src, &mut out);
}
