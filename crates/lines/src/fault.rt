// Why a line of a script is malformed, and how that is said.
ghost use Rattle.std.specs.Prelude.{◌≡◌};
ghost use Rattle.lines.specs.declared.fault.Fault.TheVariants.{NoMemory};

use std::alloc::{AllocError, AllocFailed};
use std::fmt;

// What a word of a line stands for.
#[derive(Clone, Copy, PartialEq, Eq, Debug)]
pub enum Part {
    Command,
    Bank,
    Drive,
    Sector,
    Seed,
    Bytes,
    Sectors,
    Unreadable,
    Unwritable,
}

impl fmt::Display for Part {
    fn fmt<W: fmt::Write>(&self, f: &mut fmt::Formatter<W>) -> fmt::Result {
        f.write_str(match self {
            Part::Command => "command",
            Part::Bank => "bank",
            Part::Drive => "drive",
            Part::Sector => "sector",
            Part::Seed => "seed",
            Part::Bytes => "number of bytes",
            Part::Sectors => "number of sectors",
            Part::Unreadable => "unreadable sector",
            Part::Unwritable => "unwritable sector",
        })
    }
}

#[derive(Clone, Copy, PartialEq, Eq, Debug)]
pub enum Fault {
    NotAscii,
    EmptyWord,
    UnknownCommand,
    MissingWord(Part),
    ExtraWord,
    NotNumber(Part),
    NotBank,
    NotDrive,
    TooLarge { part: Part, most: u64 },
    LateDrive,
    NinthDrive,
    NothingBefore,
    NoMemory,
}

impl fmt::Display for Fault {
    fn fmt<W: fmt::Write>(&self, f: &mut fmt::Formatter<W>) -> fmt::Result {
        match self {
            Fault::NotAscii => f.write_str("a byte that is not ASCII"),
            Fault::EmptyWord => f.write_str("an empty word: words stand one space apart"),
            Fault::UnknownCommand => f.write_str("unknown command"),
            Fault::MissingWord(part) => write!(f, "missing word: the {part}"),
            Fault::ExtraWord => f.write_str("extra word"),
            Fault::NotNumber(part) => write!(f, "the {part} is not a number below 2^64"),
            Fault::NotBank => f.write_str("no such bank: the bank is 8"),
            Fault::NotDrive => f.write_str("no drive word: a drive is 8:N, N at most 255"),
            Fault::TooLarge { part, most } => write!(f, "the {part} is more than {most}"),
            Fault::LateDrive => f.write_str("a drive after another command"),
            Fault::NinthDrive => f.write_str("a ninth drive: there is room for eight"),
            Fault::NothingBefore => f.write_str("an expectation before any command"),
            Fault::NoMemory => f.write_str("no memory left"),
        }
    }
}

impl From<AllocError> for Fault {
    ghost from_gives = { λ _ fault. fault ≡ NoMemory };

    fn from(_error: AllocError) -> Fault {
        Fault::NoMemory
    }
}

// The same again, since it is another type: what a collection could not take in.
impl<T: Drop> From<AllocFailed<T>> for Fault {
    ghost from_gives = { λ _ fault. fault ≡ NoMemory };

    fn from(_refused: AllocFailed<T>) -> Fault {
        Fault::NoMemory
    }
}
