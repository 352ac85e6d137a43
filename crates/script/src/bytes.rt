// Bytes as a script writes them: two hexadecimal digits each.
ghost use Rattle.std.specs.Prelude.{◌≡◌, ◌⊎◌, true, Err};
ghost use Rattle.script.specs.declared.errors.ScriptError.TheVariants.{OutOfMemory};
ghost use Rattle.script.specs.Bytes.{are_pairs, bytes_of};
ghost use Rattle.script.specs.Fields.{listed};
ghost use Rattle.script.specs.Numbers.{all_digits};

use crate::errors::ScriptError;
use std::alloc::Global;

// The bytes that a whole piece spells. Memory is asked for only where it spells some.
pub(crate) fn read_bytes(heap: Global, piece: &[u8]) -> Result<Vec<u8>, ScriptError>
    ensures { (listed result ≡ bytes_of piece.now) ⊎ ((result ≡ Err OutOfMemory) × (are_pairs piece.now ≡ true)) }
{
    if !are_pairs(piece) {
        return Err(ScriptError::MalformedBytes);
    }
    Ok(hex::decode(heap, piece)?)
}

// Whether a piece is whole pairs of digits, at least one.
fn are_pairs(piece: &[u8]) -> bool
    ensures { result ≡ are_pairs piece.now }
{
    !piece.is_empty() && piece.len() % 2 == 0 && are_digits(piece)
}

// Whether all bytes are hexadecimal digits. A byte that is none does not end it, so that a machine can test many at once.
#[tactic(auto, using(crate::proofs::DigitPairs::hexdigit))]
fn are_digits(piece: &[u8]) -> bool
    ensures { result ≡ all_digits 16 piece.now }
{
    let mut digits = true;
    for byte in piece {
        digits &= byte.is_ascii_hexdigit();
    }
    digits
}
