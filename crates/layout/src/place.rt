// A place for one drive of a script, which owns the drive's bytes and lists.
ghost use Rattle.std.specs.Prelude.{◌≡◌, IfOk};
ghost use Rattle.layout.specs.Places.{place_means, plan_means};
ghost use Rattle.layout.specs.Slots.{slot_means, SlotStands};
ghost use Rattle.script.specs.Drives.{told_drive};

use super::slot::Slot;
use bank::SECTOR;
use drives::{Memory, Rom};
use lines::Fault;
use script::Drive;
use std::alloc::Global;

// What a memory drive works over.
#[derive(Drop)]
pub struct Store {
    bytes: Vec<u8>,
    unreadable: Vec<u64>,
    unwritable: Vec<u64>,
}

#[derive(Drop)]
pub enum Place {
    Memory(Store),
    Rom { sectors: u64 },
}

impl Place {
    // A memory drive holds zeros at first. This is no `TryFrom`: it allocates, and `try_from` is
    // not given the heap.
    pub(super) fn new(heap: Global, drive: Drive) -> Result<Place, Fault>
        ensures { IfOk result (λ place. place_means place ≡ plan_means (told_drive drive)) }
    {
        match drive {
            Drive::Rom { sectors } => Ok(Place::Rom { sectors }),
            Drive::Memory {
                sectors,
                unreadable,
                unwritable,
            } => {
                let size = sectors.checked_mul(SECTOR as u64).ok_or(Fault::NoMemory)?;
                let bytes = vec![in heap; 0u8; size as usize]?;
                Ok(Place::Memory(Store {
                    bytes,
                    unreadable,
                    unwritable,
                }))
            }
        }
    }

    // What it promises stands at each function on the way from a place to its slot: it relates two values, and is no fact of one.
    pub(super) fn slot(&mut self) -> Slot<'_>
        ensures meaning { slot_means result ≡ place_means self.old }
        ensures stands { SlotStands result }
    {
        match self {
            Place::Memory(store) => Slot::Memory(store.lend()),
            Place::Rom { sectors } => Slot::Rom(Rom::new(*sectors)),
        }
    }
}

impl Store {
    fn lend(&mut self) -> Memory<'_>
        ensures meaning { slot_means (Slot.Memory result) ≡ place_means (Place.Memory self.old) }
        ensures stands { SlotStands (Slot.Memory result) }
    {
        let Store {
            bytes,
            unreadable,
            unwritable,
        } = self;
        Memory::new(bytes, unreadable, unwritable)
    }
}
