// How the calls of a room end. The number of each refusal, its detail and what a call gives back stand in `specs/Answers.antt`.
ghost use Rattle.std.specs.Prelude.{◌≡◌, [], Err, Some};
ghost use Rattle.message.specs.Lowest.{number_of};
ghost use Rattle.centre.specs.declared.answers.Refusal.TheVariants.{NoSlip};
ghost use Rattle.centre.specs.Answers.{told, refused_with, seat_told};
ghost use Rattle.centre.specs.Words.{words_of};

use layout::rows::Account;
use slip::Slip;
use std::error::Error;
use std::fmt;

// What a call that is done gives back: nothing more, the number of an opening, an account or a slip. One type for all calls, because `told`,
// of which every call's clause is, takes one answer.
#[derive(Clone, Copy, Debug, PartialEq, Eq)]
pub enum Done {
    Plain,
    Opened(u64),
    Holds(Account),
    Says(Slip),
}

// Why a call is refused, some with the place, the field or the check.
#[derive(Clone, Copy, Debug, PartialEq, Eq)]
pub enum Refusal {
    RoomUnfit,
    DirectoryUnfit,
    NoTicket,
    AlreadyOpen,
    NoOpeningLeft,
    BadNumber,
    IllFormed(usize),
    BadField(usize),
    JournalFull,
    NothingToTakeBack,
    NoSlip,
    NotTaken(u64),
}

impl Refusal {
    // Its number in the table of refusals.
    #[tactic(auto, unfolding(crate::specs::Answers::told))]
    pub fn number(self) -> u64
        ensures { result ≡ (told (Err self)).number }
    {
        match self {
            Refusal::RoomUnfit => 1,
            Refusal::DirectoryUnfit => 2,
            Refusal::NoTicket => 3,
            Refusal::AlreadyOpen => 4,
            Refusal::NoOpeningLeft => 5,
            Refusal::BadNumber => 6,
            Refusal::IllFormed(_place) => 7,
            Refusal::BadField(_number) => 8,
            Refusal::JournalFull => 9,
            Refusal::NothingToTakeBack => 10,
            Refusal::NoSlip => 11,
            Refusal::NotTaken(_check) => 12,
        }
    }

    // The place, the field or the check that it names, or 0.
    #[tactic(auto, unfolding(crate::specs::Answers::told))]
    pub fn detail(self) -> u64
        ensures { result ≡ (told (Err self)).detail }
    {
        match self {
            Refusal::IllFormed(place) => place as u64,
            Refusal::BadField(number) => number as u64,
            Refusal::NotTaken(check) => check,
            _ => 0,
        }
    }
}

impl fmt::Display for Refusal {
    ghost output = { λ r. Some (words_of r) };

    fn fmt<W: fmt::Write>(&self, f: &mut fmt::Formatter<W>) -> fmt::Result {
        match self {
            Refusal::RoomUnfit => write!(f, "the room is unfit"),
            Refusal::DirectoryUnfit => write!(f, "the directory is unfit"),
            Refusal::NoTicket => write!(f, "the ticket is for no open seat"),
            Refusal::AlreadyOpen => write!(f, "the seat is open already"),
            Refusal::NoOpeningLeft => write!(f, "the seat has no opening left"),
            Refusal::BadNumber => write!(f, "a number of the call is bad"),
            Refusal::IllFormed(place) => write!(f, "the sheet is ill-formed at {place}"),
            Refusal::BadField(number) => write!(f, "field {number} of the message is bad"),
            Refusal::JournalFull => write!(f, "the journal is full"),
            Refusal::NothingToTakeBack => write!(f, "there is no step to take back"),
            Refusal::NoSlip => write!(f, "there is no slip"),
            Refusal::NotTaken(check) => write!(f, "the message fails by check {check}"),
        }
    }
}

impl Error for Refusal {}

// A seat's refusal is the room's of the same number.
impl From<seat::Refusal> for Refusal {
    ghost from_gives = { λ refusal r. told (Err r) ≡ seat_told (Err refusal) [] };

    #[tactic(auto, unfolding(crate::specs::Answers::told, crate::specs::Answers::seat_told, seat::specs::Calls::number_of))]
    fn from(refusal: seat::Refusal) -> Refusal {
        match refusal {
            seat::Refusal::NoTicket => Refusal::NoTicket,
            seat::Refusal::AlreadyOpen => Refusal::AlreadyOpen,
            seat::Refusal::NoOpeningLeft => Refusal::NoOpeningLeft,
            seat::Refusal::BadNumber => Refusal::BadNumber,
            seat::Refusal::JournalFull => Refusal::JournalFull,
            seat::Refusal::NothingToTakeBack => Refusal::NothingToTakeBack,
        }
    }
}

// A sheet that is no message is refused as reading it was.
impl From<message::Refusal> for Refusal {
    ghost from_gives = { λ refusal r. told (Err r) ≡ refused_with (number_of (Err refusal)).0 (number_of (Err refusal)).1 };

    #[tactic(auto, unfolding(crate::specs::Answers::told))]
    fn from(refusal: message::Refusal) -> Refusal {
        match refusal {
            message::Refusal::IllFormed(place) => Refusal::IllFormed(place),
            message::Refusal::BadField(number) => Refusal::BadField(number),
        }
    }
}

impl From<slip::NoSlip> for Refusal {
    ghost from_gives = { λ _ r. r ≡ NoSlip };

    fn from(_no_slip: slip::NoSlip) -> Refusal {
        Refusal::NoSlip
    }
}
