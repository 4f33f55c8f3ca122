//! The colour of a name.

ghost use Rattle.std.specs.Prelude.{◌≡◌};
ghost use Rattle.drawing.specs.Names.{color_of_name, hash_from, with_byte};

use crate::shape::Color;

/// What a hash begins with.
const BASIS: u32 = 2_166_136_261;

/// What a hash is multiplied by.
const PRIME: u32 = 16_777_619;

/// The colour of a name: one for one name, in all pictures.
pub fn color_of_name(name: &[u8]) -> Color
    ensures { result ≡ color_of_name name.now }
{
    let hash = hash_of(name);
    Color::Named(u64::from((hash ^ hash / 32768) % 24))
}

/// The hash of a name, by FNV-1a.
fn hash_of(name: &[u8]) -> u32
    ensures { result ≡ hash_from BASIS name.now }
{
    let mut hash = BASIS;
    for byte in name {
        hash = with_byte(hash, *byte);
    }
    hash
}

/// A hash with one more byte.
fn with_byte(hash: u32, byte: u8) -> u32
    ensures { result ≡ with_byte hash byte }
{
    (hash ^ u32::from(byte)).wrapping_mul(PRIME)
}
