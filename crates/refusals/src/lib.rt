// Why a call is refused. docs/RULES.md says when each refusal is given; its number there is the variant's.
#![tactic(auto)]

ghost use Rattle.std.specs.Prelude.{◌≡◌, ◌++◌, codes, decimal, Some};
ghost use Rattle.refusals.specs.Numbers.{number};

use std::error::Error;
use std::fmt;

#[derive(Clone, Copy, Debug, PartialEq, Eq, Hash)]
pub enum Refusal {
    ImageLength = 1,
    CapacityRange = 2,
    MemoryShort = 3,
    NoStore = 4,
    ImageMismatch = 5,
    TransactionRange = 6,
    NotOpen = 7,
    AlreadyOpen = 8,
    TooManyOpen = 9,
    TableRange = 10,
    PayloadLong = 11,
    Conflict = 12,
    KeyExists = 13,
    NotFound = 14,
    Full = 15,
    NumbersExhausted = 16,
    CheckpointRunning = 17,
    NoCheckpoint = 18,
    LevelsExhausted = 19,
    ImageFull = 20,
    ReplyShort = 21,
    BadHeader = 22,
    BadDirectory = 23,
    BadPage = 24,
    IntervalEmpty = 25,
    BadHours = 26,
    BookingEmpty = 27,
    Closed = 28,
    LogFull = 29,
    NoMark = 30,
    BadLog = 31,
}

impl From<Refusal> for u64 {
    ghost from_gives = { λ refusal n. n ≡ number refusal };

    fn from(refusal: Refusal) -> u64 {
        u64::from(refusal as u8)
    }
}

impl fmt::Display for Refusal {
    ghost output = { λ refusal. Some (codes "refused " ++ decimal (number refusal)) };

    fn fmt<W: fmt::Write>(&self, f: &mut fmt::Formatter<W>) -> fmt::Result {
        write!(f, "refused {}", u64::from(*self))
    }
}

impl Error for Refusal {}
