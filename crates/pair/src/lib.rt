// Two plain banks side by side: the left one's drives first, then the right one's, 64 in all at the most.
#![tactic(auto)]

ghost use Rattle.std.specs.Prelude.{◌≡◌};
ghost use Rattle.bank.specs.Shapes.{beside, both_drives};
ghost use Rattle.bank.proofs.Shapes.{beside_lawful, beside_plain};
ghost use Rattle.pair.specs.Sides.{Placed};

use bank::{Address, Bank, Cause, Plain, Source, sized};

// A bank shows no more drives than this.
const MOST: u8 = 64;

#[derive(Drop)]
pub struct Pair<L, R> {
    left: L,
    right: R,
}

// Whose drive a number names, with its number in the right bank. The two banks are of two types, and only the right one's number is
// another, so that each method asks the one or the other in a match of its own.
enum Side {
    Left,
    Right(u8),
}

impl<L: Plain, R: Plain> Pair<L, R> {
    pub fn new(left: L, right: R) -> Pair<L, R>
        ensures meaning { beside (L.Bank.meaning result.left) (R.Bank.meaning result.right) ≡ beside (L.Bank.meaning left) (R.Bank.meaning right) }
        ensures stands { L.Bank.stands left → R.Bank.stands right → L.Bank.stands result.left × R.Bank.stands result.right }
    {
        Pair { left, right }
    }

    fn shown(&self) -> u8
        ensures { result ≡ both_drives (L.Bank.meaning self.now.left) (R.Bank.meaning self.now.right) }
    {
        let all = self.left.count().saturating_add(self.right.count());
        all.min(MOST)
    }

    // The side of a drive that is shown, or the cause for which there is none.
    fn side(&self, drive: u8) -> Result<Side, Cause>
        ensures { Placed (L.Bank.meaning self.now.left) (R.Bank.meaning self.now.right) drive result }
    {
        if drive >= self.shown() {
            return Err(Cause::NoDrive);
        }
        let left = self.left.count();
        if drive < left {
            Ok(Side::Left)
        } else {
            Ok(Side::Right(drive - left))
        }
    }
}

impl<L: Plain, R: Plain> Bank for Pair<L, R> {
    ghost meaning = { λ p. beside (L.Bank.meaning p.left) (R.Bank.meaning p.right) };

    ghost stands = { λ p. L.Bank.stands p.left × R.Bank.stands p.right };

    ghost lawful = { λ p h. beside_lawful (L.Bank.meaning p.left) (R.Bank.meaning p.right) (L.Bank.lawful p.left h.0) (R.Bank.lawful p.right h.1) };

    fn count(&self) -> u8 {
        self.shown()
    }

    fn length(&self, drive: u8) -> u64 {
        match self.side(drive) {
            Ok(Side::Left) => self.left.length(drive),
            Ok(Side::Right(there)) => self.right.length(there),
            Err(_) => 0,
        }
    }

    fn read_end(&self, address: Address) -> Result<Source, Cause> {
        match self.side(address.drive)? {
            Side::Left => self.left.read_end(address),
            Side::Right(drive) => {
                self.right.read_end(Address { drive, ..address })?;
                Ok(Source::Cell(address))
            }
        }
    }

    fn write_cause(&self, address: Address) -> Option<Cause> {
        match self.side(address.drive) {
            Ok(Side::Left) => self.left.write_cause(address),
            Ok(Side::Right(drive)) => self.right.write_cause(Address { drive, ..address }),
            Err(cause) => Some(cause),
        }
    }

    fn read(&self, address: Address, place: &mut [u8]) -> Result<Source, Cause> {
        sized(place)?;
        match self.side(address.drive)? {
            Side::Left => self.left.read(address, place),
            Side::Right(drive) => {
                // A plain bank names the sector's own cell, which has another number here.
                self.right.read(Address { drive, ..address }, place)?;
                Ok(Source::Cell(address))
            }
        }
    }

    fn write(&mut self, address: Address, bytes: &[u8]) -> Result<(), Cause> {
        sized(bytes)?;
        match self.side(address.drive)? {
            Side::Left => self.left.write(address, bytes),
            Side::Right(drive) => self.right.write(Address { drive, ..address }, bytes),
        }
    }
}

impl<L: Plain, R: Plain> Plain for Pair<L, R> {
    ghost plainly = { λ p. beside_plain _ _ (L.Plain.plainly p.left) (R.Plain.plainly p.right) };
}
