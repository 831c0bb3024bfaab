// The bytes that a script writes: each follows from a seed and from its place in the buffer.
ghost use Rattle.std.specs.Prelude.{◌≡◌, length};
ghost use Rattle.session.specs.Seed.{seed_byte, sown};

use bank::SECTOR;

pub fn sow(place: &mut [u8], seed: u64)
    ensures { place.new ≡ sown seed (length place.old) }
{
    for (index, byte) in place.iter_mut().enumerate() {
        *byte = sprout(seed, index);
    }
}

// Only the seed's low byte counts, so that no sum can wrap.
fn sprout(seed: u64, index: usize) -> u8
    ensures { result ≡ seed_byte seed index }
{
    let step = 31 * (index / SECTOR) + index % SECTOR;
    ((seed % 256 + step as u64) % 256) as u8
}
