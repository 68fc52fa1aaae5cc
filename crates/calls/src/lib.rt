// The answers of the public calls, by value. Their promises stand in this crate's specs, and what
// is proved of them there and in its proofs; the crates that compute the answers rest on it. A
// refusal is its number, with zeros beside it.
#![tactic(auto)]

mod telling; // telling.rt: what the crates below answer, as these structs

pub use telling::number;

// The new count of a list, or the refusal.
#[repr(C)]
#[derive(Clone, Copy, Debug, PartialEq, Eq)]
pub struct Counted {
    pub refusal: u8,
    pub count: usize,
}

// The numbers of rocks' crossings, shut crossings and groups, or the refusal.
#[repr(C)]
#[derive(Clone, Copy, Debug, PartialEq, Eq)]
pub struct Labelling {
    pub refusal: u8,
    pub rocks: usize,
    pub shut: usize,
    pub groups: usize,
}

// The number of sweeps that changed something, or the refusal.
#[repr(C)]
#[derive(Clone, Copy, Debug, PartialEq, Eq)]
pub struct Swept {
    pub refusal: u8,
    pub sweeps: usize,
}

// The four distances of a crossing, east, south, west, north, or the refusal.
#[repr(C)]
#[derive(Clone, Copy, Debug, PartialEq, Eq)]
pub struct Four {
    pub refusal: u8,
    pub four: [u16; 4],
}

// Whether home is assured, or the refusal.
#[repr(C)]
#[derive(Clone, Copy, Debug, PartialEq, Eq)]
pub struct Assurance {
    pub refusal: u8,
    pub assured: bool,
}

// How many hops homeward are permitted, none at home, and where they lead, the east-west one first;
// or the refusal.
#[repr(C)]
#[derive(Clone, Copy, Debug, PartialEq, Eq)]
pub struct Homeward {
    pub refusal: u8,
    pub hops: u8,
    pub x: usize,
    pub y: usize,
    pub a: usize,
    pub b: usize,
}

// How many crossings of the route were filled, or the refusal.
#[repr(C)]
#[derive(Clone, Copy, Debug, PartialEq, Eq)]
pub struct Drove {
    pub refusal: u8,
    pub length: usize,
}

// Width, height and number of markers of a map that was read, or the refusal.
#[repr(C)]
#[derive(Clone, Copy, Debug, PartialEq, Eq)]
pub struct ReadMap {
    pub refusal: u8,
    pub width: usize,
    pub height: usize,
    pub count: usize,
}

// How many bytes were written, or the refusal.
#[repr(C)]
#[derive(Clone, Copy, Debug, PartialEq, Eq)]
pub struct WroteMap {
    pub refusal: u8,
    pub bytes: usize,
}

// What is found of a drawn list: why it is at fault and the position of the first crossing at
// fault, both 0 for an accepted list; or the refusal.
#[repr(C)]
#[derive(Clone, Copy, Debug, PartialEq, Eq)]
pub struct Checked {
    pub refusal: u8,
    pub reason: u8,
    pub position: usize,
}

// How many bytes of a picture were written, or the refusal.
#[repr(C)]
#[derive(Clone, Copy, Debug, PartialEq, Eq)]
pub struct SheetWritten {
    pub refusal: u8,
    pub bytes: usize,
}

// Width and height of a picture that was read, or the refusal.
#[repr(C)]
#[derive(Clone, Copy, Debug, PartialEq, Eq)]
pub struct SheetRead {
    pub refusal: u8,
    pub width: usize,
    pub height: usize,
}

// Whether two places have crossing lines, and if so the westmost column and the southmost row; if
// not, or with a refusal, zeros.
#[repr(C)]
#[derive(Clone, Copy, Debug, PartialEq, Eq)]
pub struct CrossingLines {
    pub refusal: u8,
    pub yes: bool,
    pub column: usize,
    pub row: usize,
}
