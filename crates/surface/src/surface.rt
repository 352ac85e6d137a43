ghost use Rattle.std.specs.Prelude.{◌≡◌, ℕ, ◌<◌};
ghost use Rattle.surface.specs.Lookups.{Lookup, folded};
ghost use Rattle.surface.specs.Sources.{Answers};

use crate::fault::Fault;
use crate::source::Source;
use memory::Memory;

// A surface means a side, and for each place (u, v) below the side a colour or a memory's refusal.
pub trait Surface {
    // how many places it has in a row and in a column
    ghost side: { Self → ℕ };

    // what it looks up at (u, v) below the side: the halfwords that it needs, one after the other, and then its colour
    ghost lookup: { Self → ℕ → ℕ → Lookup };

    fn side(&self) -> u16
        ensures value { result ≡ side self.now }
        ensures some { 0 < result };

    // The colour at a place (u, v), folded into the side: u mod side, v mod side. It is refused exactly if the memory
    // refuses a halfword that the surface needs there, with the first such refusal.
    fn colour<M: Memory>(&self, at: (u16, u16), source: &Source<'_, M>) -> Result<u16, Fault>
        ensures { Answers M.outcome source.now (folded (side self.now) (lookup self.now) at.0 at.1) result };
}
