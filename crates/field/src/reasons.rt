// Why a drawn list is refused, in the order of the reasons' numbers, which specs/Reasons has.
ghost use Rattle.std.specs.Prelude.{◌≡◌};
ghost use Rattle.field.specs.Reasons.{reason_number};

// No reason applies.
pub const NO_FAULT: u8 = 0;

#[derive(Clone, Copy, Debug, PartialEq, Eq)]
pub enum Reason {
    WrongStart,
    OffTheMap,
    IsClosed,
    NotANeighbour,
    NotNearer,
    EndedEarly,
    WentOn,
}

impl Reason {
    // The reason's number.
    pub fn number(self) -> u8
        ensures { result ≡ reason_number self }
    {
        match self {
            Reason::WrongStart => 1,
            Reason::OffTheMap => 2,
            Reason::IsClosed => 3,
            Reason::NotANeighbour => 4,
            Reason::NotNearer => 5,
            Reason::EndedEarly => 6,
            Reason::WentOn => 7,
        }
    }
}

// What is at fault with a drawn list: why, and the position of the first crossing at fault.
#[derive(Clone, Copy, Debug, PartialEq, Eq)]
pub struct Fault {
    pub reason: Reason,
    pub position: usize,
}
