ghost use Rattle.std.specs.Prelude.{◌≡◌};
ghost use Rattle.memory.specs.Halfwords.{even};
ghost use Rattle.memory.specs.Memories.{flat};

use crate::address::even;
use crate::block::halfword_at;
use crate::memory::{Memory, offset_from};
use crate::refusal::Refusal;

// The caller's bytes, shown from a base address on.
#[derive(Clone, Copy)]
pub struct Flat<'a> {
    base: u32,
    bytes: &'a [u8],
}

impl<'a> Flat<'a> {
    // Shows these bytes; an odd base is rounded down to even.
    pub fn new(base: u32, bytes: &'a [u8]) -> Self
        ensures { ⟦<Flat<'a> as Memory>⟧.outcome result ≡ flat (even base) bytes.now }
    {
        Flat {
            base: even(base),
            bytes,
        }
    }
}

impl<'a> Memory for Flat<'a> {
    ghost outcome = { λ m. flat m.base m.bytes.now };

    fn read(&self, address: u32) -> Result<u16, Refusal> {
        let offset = offset_from(self.base, address)?;
        if offset + 1 >= self.bytes.len() {
            return Err(Refusal::Absent);
        }
        Ok(halfword_at(self.bytes, offset))
    }
}
