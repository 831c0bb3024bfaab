// The digest by which a script names the bytes of a buffer: 32-bit FNV-1a.
ghost use Rattle.std.specs.Prelude.{◌≡◌};
ghost use Rattle.session.specs.Digest.{mix, fnv};

const BASIS: u32 = 0x811c_9dc5;

const PRIME: u32 = 0x0100_0193;

pub fn digest(bytes: &[u8]) -> u32
    ensures { result ≡ fnv bytes.now }
{
    bytes.iter().fold(BASIS, |hash, byte| mixed(hash, *byte))
}

// One byte more.
fn mixed(hash: u32, byte: u8) -> u32
    ensures { result ≡ mix hash byte }
{
    (hash ^ u32::from(byte)).wrapping_mul(PRIME)
}
