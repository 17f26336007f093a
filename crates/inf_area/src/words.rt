//! Words of a story: numbers in two bytes.
ghost use Rattle.std.specs.Prelude.{◌≡◌};
ghost use Rattle.inf_area.specs.Words.{word};

use byteorder::{BigEndian, ByteOrder};

/// Returns the two bytes of `number` in a story, the high one first (Z-Machine Standard 1.1, section 2.1).
pub fn word_bytes(number: u16) -> [u8; 2]
    ensures { result ≡ word number }
{
    let mut bytes = [0; 2];
    BigEndian::write_u16(&mut bytes, number);
    bytes
}
