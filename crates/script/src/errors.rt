// Why a line of a script is not carried out.
ghost use Rattle.std.specs.Prelude.{◌≡◌, Some};
ghost use Rattle.script.specs.declared.errors.ScriptError.TheVariants.{OutOfMemory};
ghost use Rattle.script.specs.Errors.{message, bytes_error, IsFileError};

use hex::FromHexError;
use std::alloc::AllocError;
use std::error::Error;
use std::{fmt, io};

#[derive(Clone, Copy, PartialEq, Eq, Debug)]
pub enum ScriptError {
    // a line that is no remark has a carriage return
    CarriageReturn,
    // the first piece is no command word
    NoSuchCommand,
    // the command takes more pieces
    MissingPiece,
    // the command takes fewer pieces
    ExtraPiece,
    // a piece that should be a number is none
    MalformedNumber,
    // a number is outside the type of its field
    NumberTooLarge,
    // a piece that should be bytes is not made of pairs of hexadecimal digits
    MalformedBytes,
    // more RAM is asked for than a panel may have
    RamTooLarge,
    // not every byte to write lies inside the RAM
    NotInsideRam,
    // the file of a card cannot be read
    FileUnreadable,
    // there is no memory to carry the line out
    OutOfMemory,
}

// What is wrong, in words.
impl fmt::Display for ScriptError {
    ghost output = { λ error. Some (message error) };

    fn fmt<W: fmt::Write>(&self, f: &mut fmt::Formatter<W>) -> fmt::Result {
        f.write_str(match self {
            ScriptError::CarriageReturn => {
                "the line has a carriage return; lines end in a line feed alone"
            }
            ScriptError::NoSuchCommand => "no such command",
            ScriptError::MissingPiece => "a piece is missing",
            ScriptError::ExtraPiece => "more pieces than the command takes",
            ScriptError::MalformedNumber => "malformed number",
            ScriptError::NumberTooLarge => "number too large for its type",
            ScriptError::MalformedBytes => "malformed bytes",
            ScriptError::RamTooLarge => "the RAM has at most 1048576 bytes",
            ScriptError::NotInsideRam => "not inside the RAM",
            ScriptError::FileUnreadable => "file cannot be read",
            ScriptError::OutOfMemory => "not enough memory",
        })
    }
}

impl Error for ScriptError {}

impl From<AllocError> for ScriptError {
    ghost from_gives = { λ _ error. error ≡ OutOfMemory };

    fn from(_error: AllocError) -> ScriptError {
        ScriptError::OutOfMemory
    }
}

// Bytes that are not spelled by pairs of digits.
impl From<FromHexError> for ScriptError {
    ghost from_gives = { λ cause error. error ≡ bytes_error cause };

    fn from(error: FromHexError) -> ScriptError {
        match error {
            FromHexError::OutOfMemory => ScriptError::OutOfMemory,
            _ => ScriptError::MalformedBytes,
        }
    }
}

// A card's file, or the script itself, that cannot be read.
impl From<io::Error> for ScriptError {
    ghost from_gives = { IsFileError };

    fn from(error: io::Error) -> ScriptError {
        match error.kind() {
            io::ErrorKind::OutOfMemory => ScriptError::OutOfMemory,
            _ => ScriptError::FileUnreadable,
        }
    }
}
