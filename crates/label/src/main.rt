// The labelling program: reads a map file from standard input and prints the map's labels, or why
// the file is refused.
#![tactic(auto)]

use chart::ROOM;
use mapfile::MOST_BYTES;

// "A program takes at most 65,536 input bytes": so many and one more, so that a longer input is
// told from the longest.
const INPUT: usize = MOST_BYTES + 1;

// The descriptors that every program is started with.
const STDIN: i32 = 0;

const STDOUT: i32 = 1;

const STDERR: i32 = 2;

// Prints the text. A program has no exit status to tell a closed output by, so it says it on
// standard error.
fn print(text: &[u8]) {
    if !io::write_all(STDOUT, text) {
        io::write_all(STDERR, b"label: the text could not be written\n");
    }
}

fn main() {
    let mut src = [0u8; INPUT];
    let n = io::read_full(STDIN, &mut src);
    let mut out = [0u8; ROOM];
    let end = chart::chart(&src[..n], &mut out);
    print(&out[..end]);
}
