// What the crates below answer, as document 01's number and values: on success 0 and the values,
// and at a refusal its number and zeros.
ghost use Rattle.std.specs.Prelude.{◌≡◌};
ghost use Rattle.field.specs.Refusals.{told};
ghost use Rattle.calls.specs.Told.{counted, labelling, swept, four, assurance, homeward_of, drove};
ghost use Rattle.calls.specs.Answers.{no_hop};
ghost use Rattle.calls.specs.LinesCall.{no_lines_told};
ghost use Rattle.calls.specs.Told.{read_map, wrote_map, checked, sheet_written, sheet_read, crossing_lines};

use super::{
    Assurance, Checked, Counted, CrossingLines, Drove, Four, Homeward, Labelling, ReadMap,
    SheetRead, SheetWritten, Swept, WroteMap,
};
use field::reasons::NO_FAULT;
use field::refusals::SUCCESS;
use field::{Fault, Hops, Labelled, Place, Reading, Refusal, Size};

// The number alone, for a call that answers nothing beside it.
pub fn number(answer: Result<(), Refusal>) -> u8
    ensures { result ≡ told answer }
{
    match answer {
        Ok(()) => SUCCESS,
        Err(refusal) => refusal.number(),
    }
}

impl From<Result<usize, Refusal>> for Counted {
    ghost from_gives = { λ answer r. r ≡ counted answer };

    fn from(answer: Result<usize, Refusal>) -> Counted {
        match answer {
            Ok(count) => Counted {
                refusal: SUCCESS,
                count,
            },
            Err(refusal) => Counted {
                refusal: refusal.number(),
                count: 0,
            },
        }
    }
}

impl From<Result<Labelled, Refusal>> for Labelling {
    ghost from_gives = { λ answer r. r ≡ labelling answer };

    fn from(answer: Result<Labelled, Refusal>) -> Labelling {
        match answer {
            Ok(found) => Labelling {
                refusal: SUCCESS,
                rocks: found.rocks,
                shut: found.shut,
                groups: found.groups,
            },
            Err(refusal) => Labelling {
                refusal: refusal.number(),
                rocks: 0,
                shut: 0,
                groups: 0,
            },
        }
    }
}

impl From<Result<usize, Refusal>> for Swept {
    ghost from_gives = { λ answer r. r ≡ swept answer };

    fn from(answer: Result<usize, Refusal>) -> Swept {
        match answer {
            Ok(sweeps) => Swept {
                refusal: SUCCESS,
                sweeps,
            },
            Err(refusal) => Swept {
                refusal: refusal.number(),
                sweeps: 0,
            },
        }
    }
}

impl From<Result<[u16; 4], Refusal>> for Four {
    ghost from_gives = { λ answer r. r ≡ four answer };

    fn from(answer: Result<[u16; 4], Refusal>) -> Four {
        match answer {
            Ok(four) => Four {
                refusal: SUCCESS,
                four,
            },
            Err(refusal) => Four {
                refusal: refusal.number(),
                four: [0; 4],
            },
        }
    }
}

impl From<Result<bool, Refusal>> for Assurance {
    ghost from_gives = { λ answer r. r ≡ assurance answer };

    fn from(answer: Result<bool, Refusal>) -> Assurance {
        match answer {
            Ok(assured) => Assurance {
                refusal: SUCCESS,
                assured,
            },
            Err(refusal) => Assurance {
                refusal: refusal.number(),
                assured: false,
            },
        }
    }
}

// No hop named: at home, and at a refusal.
fn no_hop(refusal: u8) -> Homeward
    ensures { result ≡ no_hop refusal }
{
    Homeward {
        refusal,
        hops: 0,
        x: 0,
        y: 0,
        a: 0,
        b: 0,
    }
}

// How many crossings a hop's answer names, and which, the east-west one first.
impl From<Result<Hops, Refusal>> for Homeward {
    ghost from_gives = { λ answer r. r ≡ homeward_of answer };

    fn from(answer: Result<Hops, Refusal>) -> Homeward {
        match answer {
            Ok(Hops::There) => no_hop(SUCCESS),
            Ok(Hops::One(p)) => Homeward {
                refusal: SUCCESS,
                hops: 1,
                x: p.x,
                y: p.y,
                a: 0,
                b: 0,
            },
            Ok(Hops::Two(p, q)) => Homeward {
                refusal: SUCCESS,
                hops: 2,
                x: p.x,
                y: p.y,
                a: q.x,
                b: q.y,
            },
            Err(refusal) => no_hop(refusal.number()),
        }
    }
}

impl From<Result<usize, Refusal>> for Drove {
    ghost from_gives = { λ answer r. r ≡ drove answer };

    fn from(answer: Result<usize, Refusal>) -> Drove {
        match answer {
            Ok(length) => Drove {
                refusal: SUCCESS,
                length,
            },
            Err(refusal) => Drove {
                refusal: refusal.number(),
                length: 0,
            },
        }
    }
}

impl From<Result<Reading, Refusal>> for ReadMap {
    ghost from_gives = { λ answer r. r ≡ read_map answer };

    fn from(answer: Result<Reading, Refusal>) -> ReadMap {
        match answer {
            Ok(reading) => ReadMap {
                refusal: SUCCESS,
                width: reading.map.w,
                height: reading.map.h,
                count: reading.rocks,
            },
            Err(refusal) => ReadMap {
                refusal: refusal.number(),
                width: 0,
                height: 0,
                count: 0,
            },
        }
    }
}

impl From<Result<usize, Refusal>> for WroteMap {
    ghost from_gives = { λ answer r. r ≡ wrote_map answer };

    fn from(answer: Result<usize, Refusal>) -> WroteMap {
        match answer {
            Ok(bytes) => WroteMap {
                refusal: SUCCESS,
                bytes,
            },
            Err(refusal) => WroteMap {
                refusal: refusal.number(),
                bytes: 0,
            },
        }
    }
}

// A drawn list that is accepted has no reason and position 0.
impl From<Result<Result<(), Fault>, Refusal>> for Checked {
    ghost from_gives = { λ answer r. r ≡ checked answer };

    fn from(answer: Result<Result<(), Fault>, Refusal>) -> Checked {
        match answer {
            Ok(Ok(())) => Checked {
                refusal: SUCCESS,
                reason: NO_FAULT,
                position: 0,
            },
            Ok(Err(fault)) => Checked {
                refusal: SUCCESS,
                reason: fault.reason.number(),
                position: fault.position,
            },
            Err(refusal) => Checked {
                refusal: refusal.number(),
                reason: 0,
                position: 0,
            },
        }
    }
}

impl From<Result<usize, Refusal>> for SheetWritten {
    ghost from_gives = { λ answer r. r ≡ sheet_written answer };

    fn from(answer: Result<usize, Refusal>) -> SheetWritten {
        match answer {
            Ok(bytes) => SheetWritten {
                refusal: SUCCESS,
                bytes,
            },
            Err(refusal) => SheetWritten {
                refusal: refusal.number(),
                bytes: 0,
            },
        }
    }
}

impl From<Result<Size, Refusal>> for SheetRead {
    ghost from_gives = { λ answer r. r ≡ sheet_read answer };

    fn from(answer: Result<Size, Refusal>) -> SheetRead {
        match answer {
            Ok(map) => SheetRead {
                refusal: SUCCESS,
                width: map.w,
                height: map.h,
            },
            Err(refusal) => SheetRead {
                refusal: refusal.number(),
                width: 0,
                height: 0,
            },
        }
    }
}

// No lines: "the test just says no", and at a refusal.
fn no_lines_told(refusal: u8) -> CrossingLines
    ensures { result ≡ no_lines_told refusal }
{
    CrossingLines {
        refusal,
        yes: false,
        column: 0,
        row: 0,
    }
}

// The crossing where column and row meet is in that column and in that row.
impl From<Result<Option<Place>, Refusal>> for CrossingLines {
    ghost from_gives = { λ answer r. r ≡ crossing_lines answer };

    fn from(answer: Result<Option<Place>, Refusal>) -> CrossingLines {
        match answer {
            Ok(Some(met)) => CrossingLines {
                refusal: SUCCESS,
                yes: true,
                column: met.x,
                row: met.y,
            },
            Ok(None) => no_lines_told(SUCCESS),
            Err(refusal) => no_lines_told(refusal.number()),
        }
    }
}
