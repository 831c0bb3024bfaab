// The drive that a script chooses for a place: a memory drive or a ROM drive. It is a plain bank of one drive.
ghost use Rattle.layout.specs.Slots.{slot_means, SlotStands, slot_lawful, slot_plain};

use bank::{Address, Bank, Cause, Plain, Source};
use drives::{Memory, Rom};

// An enum, and no `dyn Plain`: `slots` would make boxes and hand them out, which the gate refuses, and a box can fail for want of
// memory where `slots` can't. So each method has a match of its own.
#[derive(Drop)]
pub enum Slot<'a> {
    Memory(Memory<'a>),
    Rom(Rom),
}

impl Bank for Slot<'_> {
    ghost meaning = { slot_means };

    ghost stands = { SlotStands };

    ghost lawful = { slot_lawful };

    fn count(&self) -> u8 {
        match self {
            Slot::Memory(there) => there.count(),
            Slot::Rom(there) => there.count(),
        }
    }

    fn length(&self, drive: u8) -> u64 {
        match self {
            Slot::Memory(there) => there.length(drive),
            Slot::Rom(there) => there.length(drive),
        }
    }

    fn read_end(&self, address: Address) -> Result<Source, Cause> {
        match self {
            Slot::Memory(there) => there.read_end(address),
            Slot::Rom(there) => there.read_end(address),
        }
    }

    fn write_cause(&self, address: Address) -> Option<Cause> {
        match self {
            Slot::Memory(there) => there.write_cause(address),
            Slot::Rom(there) => there.write_cause(address),
        }
    }

    fn read(&self, address: Address, place: &mut [u8]) -> Result<Source, Cause> {
        match self {
            Slot::Memory(there) => there.read(address, place),
            Slot::Rom(there) => there.read(address, place),
        }
    }

    fn write(&mut self, address: Address, bytes: &[u8]) -> Result<(), Cause> {
        match self {
            Slot::Memory(there) => there.write(address, bytes),
            Slot::Rom(there) => there.write(address, bytes),
        }
    }
}

impl Plain for Slot<'_> {
    ghost plainly = { slot_plain };
}
