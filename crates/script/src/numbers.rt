// Numbers as a script writes them: 12, -256, 0x1F.
ghost use Rattle.std.specs.Prelude.{◌≡◌, ◌≤◌};
ghost use Rattle.script.specs.Fields.{then};
ghost use Rattle.script.specs.Numbers.{size_of, positive, number_of, unsigned_32};

use crate::errors::ScriptError;

// Sizes from here on are not told apart: no type that a script can ask for reaches so far.
const LIMIT: u64 = 0x1_0000_0000;

// The number that a whole piece spells.
fn read_number(piece: &[u8]) -> Result<i64, ScriptError>
    ensures { result ≡ number_of piece.now }
{
    let number = match piece {
        [b'-', digits @ ..] => size(digits, 10).map(|size| -size),
        [b'0', b'x', digits @ ..] => size(digits, 16),
        _ => size(piece, 10),
    };
    number.ok_or(ScriptError::MalformedNumber)
}

// That number, held to 32 bits without sign.
pub(crate) fn read_u32(piece: &[u8]) -> Result<u32, ScriptError>
    ensures { result ≡ then (number_of piece.now) unsigned_32 }
{
    u32::try_from(read_number(piece)?).map_err(|_| ScriptError::NumberTooLarge)
}

// What digits spell, up to the limit. Decimal digits have an arm of their own, which makes long numbers faster.
fn size(digits: &[u8], radix: u32) -> Option<i64>
    requires { (2 ≤ radix) × (radix ≤ 16) }
    ensures { result ≡ positive (size_of radix digits.now) }
{
    if digits.is_empty() {
        return None;
    }
    let mut size: u64 = 0;
    for byte in digits {
        let value = match *byte {
            b'0'..=b'9' => Some(u32::from(*byte - b'0')).filter(|value| *value < radix),
            letter => char::from(letter).to_digit(radix),
        }?;
        size = (size * u64::from(radix) + u64::from(value)).min(LIMIT);
    }
    Some(size as i64)
}
