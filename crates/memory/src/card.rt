ghost use Rattle.std.specs.Prelude.{◌≡◌, ◌%◌, ◌<◌, ◌≤◌, count_by};
ghost use Rattle.memory.specs.Cards.{block_count, sound_count, block_outcome, card, card_at};
ghost use Rattle.memory.specs.Halfwords.{even, Bytes};
ghost use Rattle.memory.specs.Laws.{CardLaws};
ghost use Rattle.memory.specs.Outcomes.{even_answer};
ghost use Rattle.memory.specs.States.{StatesOf, is_sound};

use crate::address::even;
use crate::block::{BlockState, blocks_of, check_block, halfword_at};
use crate::memory::{Memory, offset_from};
use crate::refusal::Refusal;
use std::marker::Model;

// A file of 512-byte blocks, each with its number and two sums, shown from a base address on. Contracts see its base and
// its file. The states lie in an array, since making a card must not allocate, which could fail.
#[derive(Drop)]
pub struct Card {
    base: u32,
    file: Vec<u8>,
    states: [BlockState; 4096],
}

impl Model for Card {
    ghost use Rattle.memory.specs.Cards.{CardFile};
    ghost use Rattle.memory.specs.States.{StatesOf};

    ghost Value = { CardFile };

    ghost view = { λ c. record { base = c.base; file = c.file.items } };

    ghost invariant = { λ c. StatesOf c.file.items c.states };
}

// The state of each block that counts; each block is summed once.
fn check_blocks(file: &[u8]) -> [BlockState; 4096]
    ensures states { StatesOf file.now result }
    ensures bytes { Bytes file.now }
{
    let mut states = [BlockState::Unsound; 4096];
    for (k, block) in blocks_of(file).iter().enumerate() {
        states[k] = check_block(block, k as u32);
    }
    states
}

// How many of some states are Sound.
fn count_sound(states: &[BlockState]) -> usize
    ensures { result ≡ count_by is_sound states.now }
{
    states
        .iter()
        .filter(|state| **state == BlockState::Sound)
        .count()
}

impl Card {
    // The card of a file at an even base; each block is summed once.
    fn at_even_base(base: u32, file: Vec<u8>) -> Self
        requires { base % 2 ≡ 0 }
        ensures value { result ≡ card_at base file.items }
        ensures laws { CardLaws base file.items (⟦<Card as Memory>⟧.outcome result) }
    {
        let states = check_blocks(file.as_slice());
        Card { base, file, states }
    }

    // How many of the first n blocks are sound.
    fn sound_among(&self, n: usize) -> usize
        requires { n ≤ block_count self.now.file }
        ensures { result ≡ sound_count self.now.file n }
    {
        count_sound(&self.states[..n])
    }

    // The halfword at byte j of the data of block k, if that block counts and is sound.
    fn halfword(&self, k: usize, j: usize) -> Result<u16, Refusal>
        requires { j < 504 }
        ensures { result ≡ even_answer (block_outcome self.now.file k j) }
    {
        let blocks = blocks_of(self.file.as_slice());
        let block = blocks.get(k).ok_or(Refusal::Absent)?;
        match self.states[k] {
            BlockState::Unsound => Err(Refusal::Unsound),
            BlockState::Sound => Ok(halfword_at(block, j)),
        }
    }

    // Takes a file over and shows its sound blocks; an odd base is rounded down to even. What the card shows is the
    // outcome function below; `laws` says what that means for a damaged card and for a sealed one.
    pub fn new(base: u32, file: Vec<u8>) -> Self
        ensures value { result ≡ card_at (even base) file.items }
        ensures laws { CardLaws (even base) file.items (⟦<Card as Memory>⟧.outcome result) }
    {
        Card::at_even_base(even(base), file)
    }

    // How many blocks the card has.
    pub fn blocks(&self) -> usize
        ensures { result ≡ block_count self.now.file }
    {
        blocks_of(self.file.as_slice()).len()
    }

    // How many of them are sound.
    pub fn sound_blocks(&self) -> usize
        ensures { result ≡ sound_count self.now.file (block_count self.now.file) }
    {
        self.sound_among(self.blocks())
    }
}

impl Memory for Card {
    ghost outcome = { λ c. card c.base c.file };

    fn read(&self, address: u32) -> Result<u16, Refusal> {
        let offset = offset_from(self.base, address)?;
        self.halfword(offset / 504, offset % 504)
    }
}
