// The drives of one script: up to eight, in the order in which it describes them.
ghost use Rattle.std.specs.Prelude.{◌≡◌, ◌+◌, replicate, IfOk, MatchResult, slice_set};
ghost use Rattle.bank.specs.Absent.{maybe_means, MaybeStands};
ghost use Rattle.bank.specs.Shapes.{no_drives};
ghost use Rattle.layout.specs.Places.{all_mean, place_means, plan_means};
ghost use Rattle.layout.specs.Slots.{slot_means, SlotStands};
ghost use Rattle.layout.specs.Slotted.{slots_mean, SlotsStand};
ghost use Rattle.script.specs.Drives.{told_drive};

use super::eight::Eight;
use super::place::Place;
use super::slot::Slot;
use lines::Fault;
use script::Drive;
use std::alloc::Global;

// How many drives a script may describe.
const PLACES: usize = 8;

#[derive(Default, Drop)]
pub struct Layout {
    // How many places are taken, from the first on. A vector would count for itself, but `new` is not given the heap; a search for the
    // first free place would need an invariant, that no place behind it is taken.
    count: u8,
    places: [Option<Place>; PLACES],
}

impl Layout {
    pub fn new() -> Layout
        ensures count { result.count ≡ 0 }
        ensures means { all_mean result ≡ replicate 8 no_drives }
    {
        Layout::default()
    }

    // The next free place takes the drive; the answer is its number.
    #[tactic(auto, using(crate::proofs::Taken::taken))]
    pub fn add(&mut self, heap: Global, drive: Drive) -> Result<u8, Fault>
        ensures number { MatchResult result (λ number. (number ≡ self.old.count) × (self.new.count ≡ self.old.count + 1)) (λ _. self.new ≡ self.old) }
        ensures means { IfOk result (λ number. all_mean self.new ≡ slice_set (all_mean self.old) number (plan_means (told_drive drive))) }
    {
        let number = self.count;
        let free = usize::from(number);
        if free >= PLACES {
            return Err(Fault::NinthDrive);
        }
        let place = Place::new(heap, drive)?;
        self.places[free] = Some(place);
        self.count = number + 1;
        Ok(number)
    }

    pub fn slots(&mut self) -> Eight<Option<Slot<'_>>>
        ensures means { slots_mean result ≡ all_mean self.old }
        ensures stand { SlotsStand result }
    {
        let places = &mut self.places;
        let mut rest = places.iter_mut();
        // Eight calls, since `Eight` is no array.
        Eight {
            a: slot_of(rest.next()),
            b: slot_of(rest.next()),
            c: slot_of(rest.next()),
            d: slot_of(rest.next()),
            e: slot_of(rest.next()),
            f: slot_of(rest.next()),
            g: slot_of(rest.next()),
            h: slot_of(rest.next()),
        }
    }
}

// The slot of a place, if there is one and it is taken.
fn slot_of<'a>(place: Option<&'a mut Option<Place>>) -> Option<Slot<'a>>
    ensures means { maybe_means slot_means result ≡ maybe_means (λ it. maybe_means place_means it.now) place.entry }
    ensures stands { MaybeStands SlotStands result }
{
    place?.as_mut().map(Place::slot)
}
