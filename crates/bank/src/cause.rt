// Why a sector can't be read or written, and the number by which each cause is known.
ghost use Rattle.std.specs.Prelude.{◌≡◌, Some};
ghost use Rattle.bank.specs.Shown.{cause_text};
ghost use Rattle.bank.specs.Told.{number_of};

use std::fmt;

#[derive(Clone, Copy, PartialEq, Eq, Debug)]
pub enum Cause {
    NoDrive,
    PastEnd,
    Unreadable,
    Unwritable,
    Suspended,
    ErrorRow,
    FlakeyDown,
    WrongSize,
}

impl Cause {
    pub fn number(self) -> u8
        ensures { result ≡ number_of self }
    {
        u8::from(self)
    }
}

impl From<Cause> for u8 {
    ghost from_gives = { λ cause number. number ≡ number_of cause };

    fn from(cause: Cause) -> u8 {
        match cause {
            Cause::NoDrive => 1,
            Cause::PastEnd => 2,
            Cause::Unreadable => 3,
            Cause::Unwritable => 4,
            Cause::Suspended => 5,
            Cause::ErrorRow => 6,
            Cause::FlakeyDown => 7,
            Cause::WrongSize => 8,
        }
    }
}

impl fmt::Display for Cause {
    ghost output = { λ cause. Some (cause_text cause) };

    fn fmt<W: fmt::Write>(&self, f: &mut fmt::Formatter<W>) -> fmt::Result {
        write!(f, "cause {}", self.number())
    }
}
