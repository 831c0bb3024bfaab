// A bank that may be absent: where it is, there is no drive.
ghost use Rattle.bank.specs.Absent.{maybe_means, MaybeStands, maybe_lawful, maybe_plain};

use super::address::Address;
use super::cause::Cause;
use super::size::sized;
use super::source::Source;
use super::traits::{Bank, Plain};

impl<B: Bank> Bank for Option<B> {
    ghost meaning = { maybe_means B.meaning };

    ghost stands = { MaybeStands B.stands };

    ghost lawful = { maybe_lawful B.meaning B.stands B.lawful };

    fn count(&self) -> u8 {
        self.as_ref().map_or(0, |bank| bank.count())
    }

    fn length(&self, drive: u8) -> u64 {
        self.as_ref().map_or(0, |bank| bank.length(drive))
    }

    fn read_end(&self, address: Address) -> Result<Source, Cause> {
        self.as_ref().ok_or(Cause::NoDrive)?.read_end(address)
    }

    fn write_cause(&self, address: Address) -> Option<Cause> {
        let absent = Some(Cause::NoDrive);
        self.as_ref()
            .map_or(absent, |bank| bank.write_cause(address))
    }

    fn read(&self, address: Address, place: &mut [u8]) -> Result<Source, Cause> {
        sized(place)?;
        self.as_ref().ok_or(Cause::NoDrive)?.read(address, place)
    }

    fn write(&mut self, address: Address, bytes: &[u8]) -> Result<(), Cause> {
        sized(bytes)?;
        self.as_mut().ok_or(Cause::NoDrive)?.write(address, bytes)
    }
}

impl<B: Plain> Plain for Option<B> {
    ghost plainly = { maybe_plain B.Bank.meaning B.plainly };
}
