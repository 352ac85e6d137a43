ghost use Rattle.surface.specs.Surfaces.{plain_lookup};

use crate::fault::Fault;
use crate::source::Source;
use crate::surface::Surface;
use memory::Memory;

// One colour everywhere, opaque; of the colour only the low 15 bits count.
#[derive(Clone, Copy)]
pub struct Plain {
    pub colour: u16,
}

impl Surface for Plain {
    ghost side = { λ _. 1 };

    ghost lookup = { λ s u v. plain_lookup s.colour };

    fn side(&self) -> u16 {
        1
    }

    fn colour<M: Memory>(&self, _at: (u16, u16), _source: &Source<'_, M>) -> Result<u16, Fault> {
        Ok(0x8000 + self.colour % 0x8000)
    }
}
