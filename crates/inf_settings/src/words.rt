//! Words that set a setting.
ghost use Rattle.std.specs.Prelude.{◌≡◌, ◌<◌, IfSome, length, option_map};
ghost use Rattle.inf_settings.specs.{Assignments.told, Words.assignment_of, Words.capped, Words.decimal_of, Words.sign_in};

/// A name and a number, which a word of a command assigns.
#[derive(Clone, Copy)]
pub struct Assignment<'a> {
    pub name: &'a [u8],
    /// The number, or 4,294,967,295 where it is greater.
    pub number: u32,
}

impl<'a> Assignment<'a> {
    /// Returns the assignment that a word makes: `$`, a name, `=` and a number of decimal digits; `None` for every other word.
    /// Whether a setting has this name, and whether the setting can have the number, is not looked at.
    pub fn of(word: &'a [u8]) -> Option<Assignment<'a>>
        ensures { option_map told result ≡ assignment_of word.now }
    {
        let [b'$', rest @ ..] = word else {
            return None;
        };
        let sign = sign_in(rest)?;
        let number = decimal_of(&rest[sign + 1..])?;
        Some(Assignment {
            name: &rest[..sign],
            number,
        })
    }
}

/// Returns the place of the first `=`, if there is one.
fn sign_in(bytes: &[u8]) -> Option<usize>
    ensures value { result ≡ sign_in bytes.now }
    ensures within { IfSome result (λ sign. sign < length bytes.now) }
{
    bytes.iter().position(|byte| *byte == b'=')
}

/// Returns the number that decimal digits write, or the greatest number where it is greater; `None` where there is no digit, or a
/// byte that is none.
fn decimal_of(digits: &[u8]) -> Option<u32>
    ensures { result ≡ capped (decimal_of digits.now) }
{
    if digits.is_empty() {
        return None;
    }
    let mut number: u32 = 0;
    for byte in digits {
        if !byte.is_ascii_digit() {
            return None;
        }
        number = number
            .saturating_mul(10)
            .saturating_add(u32::from(*byte - b'0'));
    }
    Some(number)
}
