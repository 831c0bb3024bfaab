// Many small drives: a plain bank of up to 255, with one sector of zeros each, which can't be written.
ghost use Rattle.std.specs.Prelude.{◌≡◌, ◌≤◌};
ghost use Rattle.edges.specs.Rack.{rack, rack_lawful};
ghost use Rattle.std.proofs.Common.{rules};

use bank::{Address, Bank, Cause, Plain, Source, sized};

#[derive(Clone, Copy)]
pub struct Rack {
    drives: u8,
}

impl Rack {
    pub fn new(drives: u8) -> Rack
        ensures { rack result.drives ≡ rack drives }
    {
        Rack { drives }
    }
}

impl Bank for Rack {
    ghost meaning = { λ r. rack r.drives };

    ghost stands = { λ r. r.drives ≤ 64 };

    ghost lawful = { λ r h. rack_lawful r.drives h };

    fn count(&self) -> u8 {
        self.drives
    }

    // A lone drive's extent has one drive where this has many; one type for both would be public for the tests alone.
    fn length(&self, drive: u8) -> u64 {
        if drive < self.drives { 1 } else { 0 }
    }

    fn read_end(&self, address: Address) -> Result<Source, Cause> {
        if address.drive >= self.drives {
            return Err(Cause::NoDrive);
        }
        if address.sector >= 1 {
            return Err(Cause::PastEnd);
        }
        Ok(Source::Cell(address))
    }

    // As `Rom::refusal`, in another crate: a public function for this line would be no plainer.
    fn write_cause(&self, address: Address) -> Option<Cause> {
        let missing = self.read_end(address).err();
        Some(missing.unwrap_or(Cause::Unwritable))
    }

    // As in `Rom` but for the line that fills the place: a function of both, with a closure for that line and clauses about it, would
    // be longer than the lines it saves.
    fn read(&self, address: Address, place: &mut [u8]) -> Result<Source, Cause> {
        sized(place)?;
        let source = self.read_end(address)?;
        place.fill(0);
        Ok(source)
    }

    fn write(&mut self, address: Address, bytes: &[u8]) -> Result<(), Cause> {
        sized(bytes)?;
        self.read_end(address)?;
        Err(Cause::Unwritable)
    }
}

impl Plain for Rack {
    ghost plainly = { Prim.search rules };
}
