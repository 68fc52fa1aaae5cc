// Why a call is refused: document 01's refusals and those of document 02, in the order of their
// numbers, which specs/Refusals has.
ghost use Rattle.std.specs.Prelude.{◌≡◌};
ghost use Rattle.field.specs.Refusals.{number_of};

// "(0 on success)"
pub const SUCCESS: u8 = 0;

#[derive(Clone, Copy, Debug, PartialEq, Eq)]
pub enum Refusal {
    // width or height is 0 or over the limit
    BadSize,
    // a lent sheet is not width × height bytes
    BadSheet,
    // count over the limit or over the list lent, an id 0, ids not rising, or a marker off the map
    BadList,
    // a place or new marker off the map, or a new id of 0
    BadPlace,
    // entering an id in use
    IdInUse,
    // clearing an id not in use
    IdNotInUse,
    // no slot: count (or a file's rocks) would pass the list lent or the limit
    NoSlot,
    // assurance, hop, region or drive asked, an end (home, place, s or d) closed
    EndClosed,
    // region or drive asked, both ends open, no shortest drive
    NoDrive,
    // route buffer shorter than distance + 1
    ShortRoute,
    // hop asked, home not assured
    NotAssured,
    // first two bytes are neither P1 nor P4, or there are fewer than two
    BadLetters,
    // header against the rules or cut short, or a P1 raster byte before the last digit that is
    // neither digit 0, 1 nor blank
    BadHeader,
    // raster ends early
    ShortRaster,
    // bytes after the raster (in P1: other than blanks)
    LongRaster,
    // two markers on one crossing, when writing
    SharedCrossing,
    // output too short for the whole file
    ShortOutput,
    // a picture's largest value other than the two that sheets are, or were, written with
    BadLargest,
    // drive by way of crossing lines asked and no such column and row
    NoLines,
    // a morning sheet not taken (Req 09), in a call that the library does not export yet
    NotTaken,
}

impl Refusal {
    // The refusal's number.
    pub fn number(self) -> u8
        ensures { result ≡ number_of self }
    {
        match self {
            Refusal::BadSize => 1,
            Refusal::BadSheet => 2,
            Refusal::BadList => 3,
            Refusal::BadPlace => 4,
            Refusal::IdInUse => 5,
            Refusal::IdNotInUse => 6,
            Refusal::NoSlot => 7,
            Refusal::EndClosed => 8,
            Refusal::NoDrive => 9,
            Refusal::ShortRoute => 10,
            Refusal::NotAssured => 11,
            Refusal::BadLetters => 12,
            Refusal::BadHeader => 13,
            Refusal::ShortRaster => 14,
            Refusal::LongRaster => 15,
            Refusal::SharedCrossing => 16,
            Refusal::ShortOutput => 17,
            Refusal::BadLargest => 18,
            Refusal::NoLines => 19,
            Refusal::NotTaken => 20,
        }
    }
}
