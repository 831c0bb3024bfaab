// Examples of the banks at their bounds, each run as a test, and a bank of many drives to try them with.
#![tactic(auto)]

ghost use Rattle.std.specs.Prelude.{◌≡◌};

#[cfg(test)]
use bank::Address;

#[cfg(test)]
mod memories;
#[cfg(test)]
mod pairs;
#[cfg(test)]
mod rack;
#[cfg(test)]
mod roms;

// The tests name many sectors, each in a word.
#[cfg(test)]
fn at(drive: u8, sector: u64) -> Address
    ensures { result ≡ record { drive = drive; sector = sector } }
{
    Address { drive, sector }
}
