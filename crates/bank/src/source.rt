// What a sector's bytes are read from: one cell of a drive, or zeros that no drive holds.
ghost use Rattle.std.specs.Prelude.{Some};
ghost use Rattle.bank.specs.Shown.{source_text};

use super::address::Address;
use std::fmt;

#[derive(Clone, Copy, PartialEq, Eq, Debug)]
pub enum Source {
    Cell(Address),
    Zeros,
}

// A cell is written as its drive, known by the bank's number 8, and its sector.
impl fmt::Display for Source {
    ghost output = { λ source. Some (source_text source) };

    fn fmt<W: fmt::Write>(&self, f: &mut fmt::Formatter<W>) -> fmt::Result {
        match self {
            Source::Cell(cell) => write!(f, "8:{}@{}", cell.drive, cell.sector),
            Source::Zeros => f.write_str("zeros"),
        }
    }
}
