ghost use Rattle.std.specs.Prelude.{◌≡◌};
ghost use Rattle.memory.specs.Halfwords.{even};
ghost use Rattle.memory.specs.Memories.{split};

use crate::address::even;
use crate::memory::Memory;
use crate::refusal::Refusal;

// Two memories, joined at a boundary: lower addresses belong to the first, the others to the second.
#[derive(Drop)]
pub struct Split<A, B> {
    boundary: u32,
    low: A,
    high: B,
}

impl<A: Memory, B: Memory> Split<A, B> {
    // Joins two memories; an odd boundary is rounded down to even.
    pub fn new(boundary: u32, low: A, high: B) -> Self
        ensures { ⟦<Split<A, B> as Memory>⟧.outcome result ≡ split (even boundary) (A.Memory.outcome low) (B.Memory.outcome high) }
    {
        Split {
            boundary: even(boundary),
            low,
            high,
        }
    }
}

impl<A: Memory, B: Memory> Memory for Split<A, B> {
    ghost outcome = { λ m. split m.boundary (A.Memory.outcome m.low) (B.Memory.outcome m.high) };

    fn read(&self, address: u32) -> Result<u16, Refusal> {
        if address < self.boundary {
            self.low.read(address)
        } else {
            self.high.read(address)
        }
    }
}
