// The ends of a sector, as an outcome line writes them.
ghost use Rattle.std.specs.Prelude.{Some};
ghost use Rattle.session.specs.Outcomes.{end_text, free_text};

use bank::{Cause, Source};
use std::fmt;

// Where a sector is read from, or why it can't be.
#[derive(Clone, Copy)]
pub(super) struct ReadText(pub(super) Result<Source, Cause>);

impl fmt::Display for ReadText {
    ghost output = { λ text. Some (end_text text.0) };

    fn fmt<W: fmt::Write>(&self, f: &mut fmt::Formatter<W>) -> fmt::Result {
        match &self.0 {
            Ok(source) => write!(f, "{source}"),
            Err(cause) => write!(f, "{cause}"),
        }
    }
}

// Why a sector can't be written, if it can't.
#[derive(Clone, Copy)]
pub(super) struct WriteText(pub(super) Option<Cause>);

impl fmt::Display for WriteText {
    ghost output = { λ text. Some (free_text text.0) };

    fn fmt<W: fmt::Write>(&self, f: &mut fmt::Formatter<W>) -> fmt::Result {
        match &self.0 {
            Some(cause) => write!(f, "{cause}"),
            None => f.write_str("free"),
        }
    }
}
