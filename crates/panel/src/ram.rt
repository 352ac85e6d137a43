// The panel's RAM.
ghost use Rattle.std.specs.Prelude.{◌≡◌, MatchResult};
ghost use Rattle.memory.specs.Halfwords.{even};
ghost use Rattle.memory.specs.Memories.{flat};
ghost use Rattle.panel.specs.Rams.{ram_bytes, Zeroed, NotMade, has_room, PokeOf};

use memory::{Flat, Memory, Refusal, even};
use script::ScriptError;
use std::alloc::Global;
use std::marker::Model;

// The most bytes that a RAM may have.
const LIMIT: u32 = 1_048_576;

// How many addresses there are.
const ADDRESSES: u64 = 0x1_0000_0000;

// Bytes from an even base address on. Contracts see the base and the vector of the bytes, by names of the specifications: a
// RAM that is as it was takes the memory that it took.
#[derive(Drop)]
pub(crate) struct Ram {
    base: u32,
    bytes: Vec<u8>,
}

impl Model for Ram {
    ghost use Rattle.panel.specs.RamBytes.{RamBytes};

    ghost Value = { RamBytes };

    ghost view = { λ ram. record { base = ram.base; bytes = ram.bytes } };
}

impl Ram {
    // These bytes; an odd base is rounded down.
    pub(crate) fn new(base: u32, bytes: Vec<u8>) -> Ram
        ensures { result ≡ ram_bytes (even base) bytes }
    {
        Ram {
            base: even(base),
            bytes,
        }
    }

    // Zero bytes; an odd base is rounded down.
    pub(crate) fn zeroed(heap: Global, base: u32, size: u32) -> Result<Ram, ScriptError>
        ensures { MatchResult result (λ ram. Zeroed base size ram) (λ e. NotMade size e) }
    {
        if size > LIMIT {
            return Err(ScriptError::RamTooLarge);
        }
        Ok(Ram::new(base, vec![in heap; 0; size as usize]?))
    }

    // Writes bytes from an address on, or changes nothing where not all of them lie inside.
    pub(crate) fn poke(&mut self, address: u32, bytes: &[u8]) -> Result<(), ScriptError>
        ensures { PokeOf self.old address bytes.now result self.new }
    {
        if !self.has_room(address, bytes.len()) {
            return Err(ScriptError::NotInsideRam);
        }
        let start = (address - self.base) as usize;
        self.bytes[start..start + bytes.len()].copy_from_slice(bytes);
        Ok(())
    }

    // Whether all of some bytes from an address on lie inside.
    fn has_room(&self, address: u32, count: usize) -> bool
        ensures { result ≡ has_room self.now address count }
    {
        let size = self.bytes.len();
        if address < self.base || count > size {
            return false;
        }
        (address - self.base) as usize <= size - count && count as u64 <= ADDRESSES - address as u64
    }
}

impl Memory for Ram {
    ghost outcome = { λ ram. flat (even ram.base) ram.bytes.items };

    fn read(&self, address: u32) -> Result<u16, Refusal> {
        Flat::new(self.base, self.bytes.as_slice()).read(address)
    }
}
