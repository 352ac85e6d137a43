ghost use Rattle.std.specs.Prelude.{◌≡◌, Ok};
ghost use Rattle.memory.specs.Outcomes.{answer};
ghost use Rattle.surface.specs.Lookups.{after_read};

use crate::fault::{Fault, Reading};
use crate::palette::Palette;
use memory::Memory;

// What colours are read from: a memory and a palette.
#[derive_where(Clone, Copy)]
pub struct Source<'a, M> {
    pub memory: &'a M,
    pub palette: &'a Palette,
}

impl<M: Memory> Source<'_, M> {
    // The halfword at an address, or the memory's refusal with what was read and where.
    pub fn read(&self, reading: Reading, address: u32) -> Result<u16, Fault>
        ensures { result ≡ after_read reading address (λ h. Ok h) (answer (M.outcome self.now.memory.now) address) }
    {
        self.memory.read(address).map_err(|refusal| Fault {
            refusal,
            reading,
            address,
        })
    }
}
