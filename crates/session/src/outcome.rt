// What a command answered, and how that is written as one line.
ghost use Rattle.std.specs.Prelude.{◌≡◌, Some};
ghost use Rattle.session.specs.Outcomes.{outcome_text, accepted};

use super::ends::{ReadText, WriteText};
use super::hex::Hex;
use bank::{Cause, Source};
use std::fmt;

#[derive(Clone, Copy)]
pub enum Outcome {
    Attached {
        drive: u8,
    },
    Counted {
        drives: u8,
    },
    Measured {
        sectors: u64,
    },
    Ended {
        read: Result<Source, Cause>,
        write: Option<Cause>,
    },
    Got {
        from: Result<Source, Cause>,
        digest: u32,
    },
    Stored(Result<(), Cause>),
}

impl Outcome {
    // Whether the command was obeyed. To ask for a sector's ends is, whatever they are.
    pub(super) fn accepted(&self) -> bool
        ensures { result ≡ accepted self.now }
    {
        !matches!(
            self,
            Outcome::Got { from: Err(_), .. } | Outcome::Stored(Err(_))
        )
    }
}

impl fmt::Display for Outcome {
    ghost output = { λ outcome. Some (outcome_text outcome) };

    fn fmt<W: fmt::Write>(&self, f: &mut fmt::Formatter<W>) -> fmt::Result {
        match self {
            Outcome::Attached { drive } => write!(f, "ok 8:{drive}"),
            Outcome::Counted { drives } => write!(f, "ok {drives}"),
            Outcome::Measured { sectors } => write!(f, "ok {sectors}"),
            Outcome::Ended { read, write } => {
                write!(f, "ok read {} write {}", ReadText(*read), WriteText(*write))
            }
            Outcome::Got { from, digest } => {
                let ok = if from.is_ok() { "ok " } else { "" };
                write!(f, "{ok}{} buffer {}", ReadText(*from), Hex(*digest))
            }
            Outcome::Stored(Ok(())) => f.write_str("ok"),
            Outcome::Stored(Err(cause)) => write!(f, "{cause}"),
        }
    }
}
