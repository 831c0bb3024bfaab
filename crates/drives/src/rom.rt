// A drive that can only be read: every byte of its sector n is n.
ghost use Rattle.std.specs.Prelude.{◌≡◌, min, Some};
ghost use Rattle.bank.specs.Meaning.{cause_of};
ghost use Rattle.bank.specs.Shapes.{one_drive};
ghost use Rattle.bank.specs.Told.{number_of};
ghost use Rattle.drives.specs.Disks.{rom};
ghost use Rattle.drives.specs.Means.{rom_means, RomStands, rom_lawful};
ghost use Rattle.drives.specs.Plain.{rom_plain};

use super::single::Extent;
use bank::{Address, Bank, Cause, Plain, Source, sized};

// One sector for each value of a byte.
const MOST: u64 = 256;

#[derive(Clone, Copy)]
pub struct Rom {
    // The sectors asked for, of which at most 256 are there.
    asked: u64,
}

impl Rom {
    // A drive of that many sectors, or of 256 where more are asked for.
    pub fn new(sectors: u64) -> Rom
        ensures meaning { rom_means result ≡ one_drive (rom sectors) }
        ensures stands { RomStands result }
    {
        Rom { asked: sectors }
    }

    fn extent(&self) -> Extent
        ensures { result.sectors ≡ min self.now.asked 256 }
    {
        Extent {
            sectors: self.asked.min(MOST),
        }
    }

    // Why a sector can't be written, as none can.
    fn refusal(&self, address: Address) -> Cause
        ensures { Some (number_of result) ≡ cause_of ((rom_means self.now).writes address.drive address.sector) }
    {
        let missing = self.extent().locate(address).err();
        missing.unwrap_or(Cause::Unwritable)
    }
}

impl Bank for Rom {
    ghost meaning = { rom_means };

    ghost stands = { RomStands };

    ghost lawful = { rom_lawful };

    // One drive, as in `Memory`: nothing says it more plainly than the number.
    fn count(&self) -> u8 {
        1
    }

    fn length(&self, drive: u8) -> u64 {
        self.extent().length(drive)
    }

    fn read_end(&self, address: Address) -> Result<Source, Cause> {
        self.extent().locate(address)?;
        Ok(Source::Cell(address))
    }

    fn write_cause(&self, address: Address) -> Option<Cause> {
        Some(self.refusal(address))
    }

    // As in `Memory` but for the line that fills the place: a function of both, with a closure for that line and clauses about it,
    // would be longer than the lines it saves.
    fn read(&self, address: Address, place: &mut [u8]) -> Result<Source, Cause> {
        sized(place)?;
        let source = self.read_end(address)?;
        place.fill(address.sector as u8);
        Ok(source)
    }

    fn write(&mut self, address: Address, bytes: &[u8]) -> Result<(), Cause> {
        sized(bytes)?;
        Err(self.refusal(address))
    }
}

impl Plain for Rom {
    ghost plainly = { rom_plain };
}
