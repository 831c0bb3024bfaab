// The words of a line, read from the left, each taken for what it stands for.
ghost use Rattle.std.specs.Prelude.{◌≡◌, [], ◌∷◌, drop, MatchResult, OnOk};
ghost use Rattle.std.specs.Option.{ok_or};
ghost use Rattle.lines.specs.Number.{number_in};
ghost use Rattle.lines.specs.declared.fault.Fault.TheVariants.{MissingWord, NotNumber};
ghost use Rattle.script.specs.Words.{unread, number_at, drive_in, drive_at, address_at, end_at, bounded, size_at};
ghost use Rattle.script.specs.Commands.{bank_at};

use bank::{Address, SECTOR};
use lines::{Fault, Part, number};

const MOST_BYTES: u64 = 1 << 20;

// The words of a line that are not read yet. To read one is to step over it.
// Each reader says itself how many words it steps over: that is a fact of the step, and no fact of the type.
#[derive(Clone, Copy)]
pub struct Words<'a> {
    pub left: &'a [&'a str],
}

impl<'a> Words<'a> {
    // The next word, which has to be there.
    pub fn word(&mut self, part: Part) -> Result<&'a str, Fault>
        ensures { MatchResult result (λ word. unread self.old ≡ word.now ∷ unread self.new) (λ fault. (fault ≡ MissingWord part) × (unread self.old ≡ []) × (unread self.new ≡ [])) }
    {
        match self.left {
            [word, left @ ..] => {
                self.left = left;
                Ok(*word)
            }
            [] => Err(Fault::MissingWord(part)),
        }
    }

    pub fn number(&mut self, part: Part) -> Result<u64, Fault>
        ensures value { result ≡ number_at (unread self.old) 0 part }
        ensures left { unread self.new ≡ drop 1 (unread self.old) }
    {
        number_of(self.word(part)?, part)
    }

    pub fn drive(&mut self) -> Result<u8, Fault>
        ensures value { result ≡ drive_at (unread self.old) 0 }
        ensures left { unread self.new ≡ drop 1 (unread self.old) }
    {
        drive_number(self.word(Part::Drive)?).ok_or(Fault::NotDrive)
    }

    // A sector of a drive.
    pub fn address(&mut self) -> Result<Address, Fault>
        ensures value { result ≡ address_at (unread self.old) 0 }
        ensures left { OnOk result (unread self.new ≡ drop 2 (unread self.old)) }
    {
        let drive = self.drive()?;
        let sector = self.number(Part::Sector)?;
        Ok(Address { drive, sector })
    }

    // The bank of plain drives has the number 8.
    pub fn bank(&mut self) -> Result<(), Fault>
        ensures value { result ≡ bank_at (unread self.old) 0 }
        ensures left { unread self.new ≡ drop 1 (unread self.old) }
    {
        if self.word(Part::Bank)? != "8" {
            return Err(Fault::NotBank);
        }
        Ok(())
    }

    // That no word is left.
    pub fn end(&self) -> Result<(), Fault>
        ensures { result ≡ end_at (unread self.now) 0 }
    {
        if !self.left.is_empty() {
            return Err(Fault::ExtraWord);
        }
        Ok(())
    }

    // What may end a line: `bytes N`, the size of a buffer, which has as many bytes as a sector unless a script says otherwise.
    pub fn size(mut self) -> Result<u64, Fault>
        ensures { result ≡ size_at (unread self.entry) 0 }
    {
        if self.left.is_empty() {
            return Ok(SECTOR as u64);
        }
        if self.word(Part::Bytes)? != "bytes" {
            return Err(Fault::ExtraWord);
        }
        let size = self.number(Part::Bytes)?;
        self.end()?;
        at_most(size, Part::Bytes, MOST_BYTES)
    }
}

// The number that a word writes.
pub fn number_of(word: &str, part: Part) -> Result<u64, Fault>
    ensures { result ≡ ok_or (number_in word.now) (NotNumber part) }
{
    number(word).ok_or(Fault::NotNumber(part))
}

// The number of a drive of the bank, which a script writes 8:N.
pub fn drive_number(word: &str) -> Option<u8>
    ensures { result ≡ drive_in word.now }
{
    u8::try_from(number(word.strip_prefix("8:")?)?).ok()
}

pub fn at_most(value: u64, part: Part, most: u64) -> Result<u64, Fault>
    ensures { result ≡ bounded value part most }
{
    if value > most {
        return Err(Fault::TooLarge { part, most });
    }
    Ok(value)
}
