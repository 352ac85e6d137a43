// The command that a line of a script spells.
ghost use Rattle.script.specs.Commands.{Means, MeansAtEnd, LineMeans, KeepsBytes, line_of, command_of};
ghost use Rattle.script.specs.Pieces.{first_piece, behind};

use crate::bytes::read_bytes;
use crate::errors::ScriptError;
use crate::numbers::read_u32;
use crate::pieces::Pieces;
use std::alloc::Global;

// A command with its fields.
#[derive(Debug, PartialEq, Eq, Drop)]
pub enum Command<'a> {
    Card { base: u32, path: &'a [u8] },
    Ram { base: u32, size: u32 },
    Boundary { address: u32 },
    Poke { address: u32, bytes: Vec<u8> },
    Peek { address: u32 },
}

// The command of a line, without its line feed; a blank line and a remark have none. Only a poke whose bytes are spelled
// as they should be can find no memory.
pub fn parse<'a>(heap: Global, line: &'a [u8]) -> Result<Option<Command<'a>>, ScriptError>
    ensures { LineMeans (KeepsBytes (first_piece line.now) (behind line.now)) result (line_of line.now) }
{
    if line.starts_with(b"#") {
        return Ok(None);
    }
    if line.contains(&b'\r') {
        return Err(ScriptError::CarriageReturn);
    }
    let mut pieces = Pieces::new(line);
    let Some(word) = pieces.next() else {
        return Ok(None);
    };
    let Ok(word) = std::str::from_utf8(word) else {
        return Err(ScriptError::NoSuchCommand);
    };
    let command = read_command(heap, word, pieces)?;
    Ok(Some(command))
}

// The command that a word begins, with its fields behind it.
fn read_command<'a>(
    heap: Global,
    word: &str,
    mut pieces: Pieces<'a>,
) -> Result<Command<'a>, ScriptError>
    ensures { Means (KeepsBytes word.now pieces.entry) result (command_of word.now pieces.entry) }
{
    let command = read_fields(heap, word, &mut pieces)?;
    pieces.end()?;
    Ok(command)
}

// The same, whatever stands behind the fields.
fn read_fields<'a>(
    heap: Global,
    word: &str,
    pieces: &mut Pieces<'a>,
) -> Result<Command<'a>, ScriptError>
    ensures { MeansAtEnd (KeepsBytes word.now pieces.old) result pieces.new (command_of word.now pieces.old) }
{
    match word {
        "card" => Ok(Command::Card {
            base: read_u32(pieces.required()?)?,
            path: pieces.required()?,
        }),
        "ram" => Ok(Command::Ram {
            base: read_u32(pieces.required()?)?,
            size: read_u32(pieces.required()?)?,
        }),
        "boundary" => Ok(Command::Boundary {
            address: read_u32(pieces.required()?)?,
        }),
        "poke" => Ok(Command::Poke {
            address: read_u32(pieces.required()?)?,
            bytes: read_bytes(heap, pieces.required()?)?,
        }),
        "peek" => Ok(Command::Peek {
            address: read_u32(pieces.required()?)?,
        }),
        _ => Err(ScriptError::NoSuchCommand),
    }
}
