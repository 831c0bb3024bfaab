// What the banks of one drive share: which sectors there are, and which of them a list makes bad.
ghost use Rattle.std.specs.Prelude.{◌≡◌, if◌then◌else◌, ◌==◌, [], ◌∷◌, ◌++◌, take};
ghost use Rattle.bank.specs.Due.{first_due};
ghost use Rattle.bank.specs.Shapes.{place_causes};
ghost use Rattle.bank.specs.Told.{number_of, told_write};
ghost use Rattle.drives.specs.Disks.{listed};

use bank::{Address, Cause};

// How many entries of a list of bad sectors count.
const MARKED: usize = 8;

// The only drive of a bank, number 0, by how many sectors it has.
#[derive(Clone, Copy)]
pub struct Extent {
    pub sectors: u64,
}

impl Extent {
    // The length of a drive of that bank.
    pub fn length(self, drive: u8) -> u64
        ensures { result ≡ (if drive == 0 then self.sectors else 0) }
    {
        if drive == 0 { self.sectors } else { 0 }
    }

    // Whether the drive has a sector: cause 1 or 2 where it has not.
    pub fn locate(self, address: Address) -> Result<(), Cause>
        ensures { told_write result ≡ first_due (place_causes self.sectors address.drive address.sector) }
    {
        if address.drive >= 1 {
            return Err(Cause::NoDrive);
        }
        if address.sector >= self.sectors {
            return Err(Cause::PastEnd);
        }
        Ok(())
    }

    // The same, and then whether a list makes the sector bad, for which there is a cause.
    pub fn judge(self, address: Address, bad: &[u64], cause: Cause) -> Result<(), Cause>
        ensures { told_write result ≡ first_due (place_causes self.sectors address.drive address.sector ++ (number_of cause, listed address.sector (take 8 bad.now)) ∷ []) }
    {
        self.locate(address)?;
        if marks(bad, address.sector) {
            return Err(cause);
        }
        Ok(())
    }
}

// Whether a sector is among a list's first 8 entries.
fn marks(list: &[u64], sector: u64) -> bool
    ensures { result ≡ listed sector (take 8 list.now) }
{
    list.iter().take(MARKED).any(|marked| *marked == sector)
}
