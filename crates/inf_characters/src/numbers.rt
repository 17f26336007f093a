//! The numbers in escapes.
ghost use Rattle.std.specs.Prelude.{◌≡◌, ◌<◌, ◌≤◌, IfSome, length};
ghost use Rattle.inf_characters.specs.{Numbers.capped, Reading.digit_of, Reading.number_from};

/// A number that no character and no code has; a greater number is read as `LIMIT`.
const LIMIT: u32 = 65536;

/// Returns the value of a digit of the base, or `None` where `byte` is none.
pub(crate) fn digit_of(base: u32, byte: u8) -> Option<u32>
    ensures value { result ≡ digit_of base byte }
    ensures small { IfSome result (λ digit. digit < 16) }
{
    match byte {
        b'0'..=b'9' => Some(u32::from(byte - b'0')),
        b'A'..=b'F' if base == 16 => Some(u32::from(byte - b'A') + 10),
        b'a'..=b'f' if base == 16 => Some(u32::from(byte - b'a') + 10),
        _ => None,
    }
}

/// Returns the number of digits of the base at the front of `bytes`, and the number that they write, or 65536 where that is less.
pub(crate) fn number_at(base: u32, bytes: &[u8]) -> (usize, u32)
    requires { base ≤ 16 }
    ensures value { result ≡ capped (number_from base 0 0 bytes.now) }
    ensures within { result.0 ≤ length bytes.now }
{
    let mut value = 0;
    for (count, byte) in bytes.iter().enumerate() {
        match digit_of(base, *byte) {
            Some(digit) => value = (value * base + digit).min(LIMIT),
            None => return (count, value),
        }
    }
    (bytes.len(), value)
}
