// The traits that every bank of drives implements. What their clauses speak of is in specs/Meaning.antt.
ghost use Rattle.std.specs.Prelude.{◌≡◌, length};
ghost use Rattle.std.specs.Option.{option_map};
ghost use Rattle.bank.specs.Meaning.{Meaning, Lawful, Plainly, Stored, cause_of, read_due, write_due, cells_of, filled};
ghost use Rattle.bank.specs.Told.{number_of, told_read, told_write};

use super::address::Address;
use super::cause::Cause;
use super::source::Source;

pub trait Bank {
    // The drives, their lengths, each sector's ends and what each cell holds.
    ghost meaning: { Self → Meaning };

    // What a value must keep for its meaning to be a bank's.
    ghost stands: { Self → Type 0 };

    // That it is: a proof that each implementation gives.
    ghost lawful: { (b : Self) → stands b → Lawful (meaning b) };

    // How many drives there are.
    fn count(&self) -> u8
        ensures { result ≡ (meaning self.now).drives };

    // The length of a drive in sectors, 0 where there is no such drive.
    fn length(&self, drive: u8) -> u64
        ensures { result ≡ (meaning self.now).size drive };

    // Where the bytes of a sector are read from, or why they can't be.
    fn read_end(&self, address: Address) -> Result<Source, Cause>
        ensures { told_read result ≡ (meaning self.now).reads address.drive address.sector };

    // Why a sector can't be written, if it can't.
    fn write_cause(&self, address: Address) -> Option<Cause>
        ensures { option_map number_of result ≡ cause_of ((meaning self.now).writes address.drive address.sector) };

    // Fills a place of 512 bytes from a sector's read end and names that end; at a cause the place keeps its bytes.
    fn read(&self, address: Address, place: &mut [u8]) -> Result<Source, Cause>
        ensures answer { told_read result ≡ read_due (meaning self.now) address.drive address.sector (length place.old) }
        ensures holds { place.new ≡ filled (meaning self.now) (read_due (meaning self.now) address.drive address.sector (length place.old)) place.old };

    // Puts 512 bytes into every cell of a sector's write end; at a cause no cell changes.
    fn write(&mut self, address: Address, bytes: &[u8]) -> Result<(), Cause>
        ensures answer { told_write result ≡ cause_of (write_due (meaning self.old) address.drive address.sector (length bytes.now)) }
        ensures after { Stored (meaning self.old) (meaning self.new) (cells_of (write_due (meaning self.old) address.drive address.sector (length bytes.now))) bytes.now }
        ensures kept { stands self.old → stands self.new };
}

// A plain bank's sector is its own cell: nothing is mapped elsewhere.
pub trait Plain: Bank {
    ghost plainly: { (b : Self) → Plainly (Self.Bank.meaning b) };
}
