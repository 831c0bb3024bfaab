// The size of a sector's place or data.
ghost use Rattle.std.specs.Prelude.{◌≡◌, ◌≢◌, length, MatchResult};
ghost use Rattle.bank.specs.declared.cause.Cause.TheVariants.{WrongSize};

use super::SECTOR;
use super::cause::Cause;

// That some bytes are as many as a sector has: any other number is refused before all else.
pub fn sized(bytes: &[u8]) -> Result<(), Cause>
    ensures { MatchResult result (λ _. length bytes.now ≡ 512) (λ cause. (length bytes.now ≢ 512) × (cause ≡ WrongSize)) }
{
    if bytes.len() != SECTOR {
        return Err(Cause::WrongSize);
    }
    Ok(())
}
