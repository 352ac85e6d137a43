// A line cut into pieces at its spaces.
ghost use Rattle.std.specs.Prelude.{◌≡◌, ◌≤◌, length};
ghost use Rattle.std.specs.Iterator.{at_most};
ghost use Rattle.std.specs.List.{prefix_len, position_or_len};
ghost use Rattle.script.specs.Fields.{lent, needed, end_of};
ghost use Rattle.script.specs.Pieces.{NextPiece, is_space, first_piece, behind};

use crate::errors::ScriptError;
use std::marker::Model;

// The pieces that are left of a line. A clause sees the bytes that are left.
#[derive(Debug, Drop)]
pub(crate) struct Pieces<'a> {
    rest: &'a [u8],
}

impl<'a> Model for Pieces<'a> {
    ghost use Rattle.std.specs.Prelude.{List, ℕ};

    ghost Value = { List ℕ };

    ghost view = { λ pieces. pieces.rest.now };
}

impl<'a> Pieces<'a> {
    pub(crate) fn new(line: &'a [u8]) -> Pieces<'a>
        ensures { result ≡ line.now }
    {
        Pieces { rest: line }
    }

    // The next piece, where a command needs one.
    pub(crate) fn required(&mut self) -> Result<&'a [u8], ScriptError>
        ensures value { lent result ≡ needed (first_piece self.old) }
        ensures after { self.new ≡ behind self.old }
    {
        self.next().ok_or(ScriptError::MissingPiece)
    }

    // Nothing but spaces may be left.
    pub(crate) fn end(mut self) -> Result<(), ScriptError>
        ensures { result ≡ end_of (first_piece self.entry) }
    {
        self.next().map_or(Ok(()), |_| Err(ScriptError::ExtraPiece))
    }
}

// No piece is empty.
impl<'a> Iterator for Pieces<'a> {
    type Item = &'a [u8];

    ghost next_gives = { NextPiece };

    ghost remaining = { λ rest. at_most (length rest) };

    fn next(&mut self) -> Option<&'a [u8]> {
        let (piece, rest) = cut(self.rest);
        self.rest = rest;
        (!piece.is_empty()).then_some(piece)
    }
}

// The first piece of a line, which is empty where only spaces are left, and what stands behind it.
fn cut(line: &[u8]) -> (&[u8], &[u8])
    ensures piece { result.0.now ≡ first_piece line.now }
    ensures rest { result.1.now ≡ behind line.now }
{
    let line = &line[space_count(line)..];
    line.split_at(piece_length(line))
}

// How many spaces stand at the front. (With this chain and the next inside `cut`, its clauses were tried and stayed open; one
// function over a closure would be no plainer, since its contract could only say what the closure answers.)
fn space_count(line: &[u8]) -> usize
    ensures value { result ≡ prefix_len is_space line.now }
    ensures bound { result ≤ length line.now }
{
    line.iter().take_while(|byte| **byte == b' ').count()
}

// How many bytes stand before the first space.
fn piece_length(line: &[u8]) -> usize
    ensures value { result ≡ position_or_len is_space line.now }
    ensures bound { result ≤ length line.now }
{
    line.iter().take_while(|byte| **byte != b' ').count()
}
