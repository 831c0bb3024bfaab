// A drive over bytes that the caller lends, with lists of the sectors that can't be read or written.
ghost use Rattle.std.specs.Prelude.{◌≡◌, ◌/◌, ◌^◌, ◌<◌, min, length};
ghost use Rattle.bank.specs.Meaning.{cause_of};
ghost use Rattle.bank.specs.Shapes.{one_drive, cut, with_sector};
ghost use Rattle.bank.specs.Told.{told_write};
ghost use Rattle.drives.specs.Disks.{memory};
ghost use Rattle.drives.specs.Means.{memory_means, MemoryStands, memory_lawful};
ghost use Rattle.drives.specs.Plain.{memory_plain};

use super::single::Extent;
use bank::{Address, Bank, Cause, Plain, SECTOR, Source, sized};

// The most sectors that a drive has, however many bytes there are.
const LONGEST: u64 = 1 << 40;

#[derive(Drop)]
pub struct Memory<'a> {
    bytes: &'a mut [u8],
    unreadable: &'a [u64],
    unwritable: &'a [u64],
}

impl<'a> Memory<'a> {
    // A drive of the whole sectors in `bytes`. The first 8 entries of each list are its bad sectors. The two lists come
    // as vectors that a place of a script's drive owns: one struct for them would be generic in the kind of list, to be turned
    // from the one kind into the other at this call.
    pub fn new(bytes: &'a mut [u8], unreadable: &'a [u64], unwritable: &'a [u64]) -> Memory<'a>
        ensures meaning { memory_means result ≡ one_drive (memory bytes.old unreadable.now unwritable.now) }
        ensures stands { MemoryStands result }
    {
        Memory {
            bytes,
            unreadable,
            unwritable,
        }
    }

    // The whole sectors in the bytes, at most 2^40.
    fn extent(&self) -> Extent
        ensures { result.sectors ≡ min (length self.now.bytes.now / 512) (2 ^ 40) }
    {
        let whole = self.bytes.len() / SECTOR;
        Extent {
            sectors: (whole as u64).min(LONGEST),
        }
    }

    // Whether a sector can be written, or why not.
    fn writable(&self, address: Address) -> Result<(), Cause>
        ensures { told_write result ≡ cause_of ((memory_means self.now).writes address.drive address.sector) }
    {
        let extent = self.extent();
        extent.judge(address, self.unwritable, Cause::Unwritable)
    }
}

// Copies a sector that the bytes have into a place of its size.
fn load(all: &[u8], sector: u64, place: &mut [u8])
    requires within { sector < length all.now / 512 }
    requires sized { length place.old ≡ 512 }
    ensures { place.new ≡ cut all.now sector }
{
    let start = sector as usize * SECTOR;
    place.copy_from_slice(&all[start..start + SECTOR]);
}

// Copies 512 bytes over a sector that the bytes have.
fn store(all: &mut [u8], sector: u64, data: &[u8])
    requires within { sector < length all.old / 512 }
    requires sized { length «data».now ≡ 512 }
    ensures { all.new ≡ with_sector all.old sector «data».now }
{
    let start = sector as usize * SECTOR;
    all[start..start + SECTOR].copy_from_slice(data);
}

impl Bank for Memory<'_> {
    ghost meaning = { memory_means };

    ghost stands = { MemoryStands };

    ghost lawful = { memory_lawful };

    // One drive, as in `Rom`: nothing says it more plainly than the number.
    fn count(&self) -> u8 {
        1
    }

    fn length(&self, drive: u8) -> u64 {
        self.extent().length(drive)
    }

    fn read_end(&self, address: Address) -> Result<Source, Cause> {
        let extent = self.extent();
        extent.judge(address, self.unreadable, Cause::Unreadable)?;
        Ok(Source::Cell(address))
    }

    fn write_cause(&self, address: Address) -> Option<Cause> {
        self.writable(address).err()
    }

    // See `Rom::read`, which is the same but for a line.
    fn read(&self, address: Address, place: &mut [u8]) -> Result<Source, Cause> {
        sized(place)?;
        let source = self.read_end(address)?;
        load(self.bytes, address.sector, place);
        Ok(source)
    }

    fn write(&mut self, address: Address, bytes: &[u8]) -> Result<(), Cause> {
        sized(bytes)?;
        self.writable(address)?;
        store(self.bytes, address.sector, bytes);
        Ok(())
    }
}

impl Plain for Memory<'_> {
    ghost plainly = { memory_plain };
}
