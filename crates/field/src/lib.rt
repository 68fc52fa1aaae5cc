// The field: what document 01 defines, as meanings that a reader must believe and workings that
// compute. The definitions stand in specs/; here stands only what code and definitions share.
#![tactic(auto)]

mod adding; // adding.rt: a depot's four numbers, of two parts together
pub mod refusals; // refusals.rt: why a call is refused
pub mod reasons; // reasons.rt: why a drawn list is refused

ghost use Rattle.field.specs.Map.{Sides};

pub use reasons::{Fault, Reason};
pub use refusals::Refusal;

// "Width and height: 1 to 64 each"; "Raise width and height to 256" (document 02, Req 07).
pub const SIDE: usize = 256;

// The crossings of the largest map.
pub const MOST_CROSSINGS: usize = 65536;

// "At most 4,096 are in use"; "Raise ... markers in use to 8,192" (Req 07).
pub const MOST_MARKERS: usize = 8192;

// "... or 255 if there is none"; "the mark becomes 65,535" (Req 07).
pub const NO_DISTANCE: u16 = 65535;

// "PGM sheets are written with largest value 65535" (Req 07)
pub const LARGEST: usize = 65535;

// "Old one-byte sheets are still read, their 255 becoming 65,535": the largest value in their
// header, and their mark where there is no distance.
pub const OLD_LARGEST: usize = 255;

pub const OLD_MARK: u8 = 255;

// "Markers read from a map file get 65,535" (document 02, Req 08)
pub const TALLEST: u16 = 65535;

// A map's size, within the limits: its width and height, in crossings.
#[derive(Clone, Copy, Debug, PartialEq, Eq)]
pub struct Size {
    pub w: usize,
    pub h: usize,
    pub ghost within: { Sides w h },
}

// A place: its column and its row.
#[derive(Clone, Copy, Debug, PartialEq, Eq)]
pub struct Place {
    pub x: usize,
    pub y: usize,
}

// A rock marker: a sixteen-bit id, the crossing on which it stands, and its height in centimetres,
// laid out for C.
#[repr(C)]
#[derive(Clone, Copy, Debug, PartialEq, Eq)]
pub struct Marker {
    pub id: u16,
    pub x: u16,
    pub y: u16,
    pub height: u16,
}

// What labelling hands back: the numbers of rocks' crossings, shut crossings and groups.
#[derive(Clone, Copy, Debug, Default, PartialEq, Eq)]
pub struct Labelled {
    pub rocks: usize,
    pub shut: usize,
    pub groups: usize,
}

// What reading a map file finds: the map's size, and how many of its crossings are rocks.
#[derive(Clone, Copy, Debug, PartialEq, Eq)]
pub struct Reading {
    pub map: Size,
    pub rocks: usize,
}

// A hop's answer: it names every permitted hop, the east-west one first; at home it is There.
#[derive(Clone, Copy, Debug, PartialEq, Eq)]
pub enum Hops {
    There,
    One(Place),
    Two(Place, Place),
}

// "each corner as depot (southwest, southeast, northwest, northeast)" (document 02, Req 05)
#[derive(Clone, Copy, Debug, PartialEq, Eq)]
pub enum Depot {
    SouthWest,
    SouthEast,
    NorthWest,
    NorthEast,
}

// How well a depot is placed (Req 05): "open crossings; those for which the depot is assured; those
// not assured that have a shortest drive; those with none". The numbers are wide enough for the
// sums over every map of a run.
#[derive(Clone, Copy, Debug, Default, PartialEq, Eq)]
pub struct Placing {
    pub opens: u64,
    pub assured: u64,
    pub driven: u64,
    pub stranded: u64,
}
