ghost use Rattle.surface.specs.Formats.{pixels};
ghost use Rattle.surface.specs.Surfaces.{image_side, image_lookup};

use crate::fault::Fault;
use crate::format::PixelFormat;
use crate::pixel::pixel_at;
use crate::side::square_side;
use crate::source::Source;
use crate::surface::Surface;
use memory::Memory;
use std::marker::PhantomData;

// A square image in memory, row by row. Its side is 2^(size + 3), or with `half` set half of that; of the size only the
// low three bits count. `poff` is the palette offset.
#[derive(Clone, Copy)]
pub struct Image<F> {
    pub image: u32,
    pub size: u8,
    pub half: bool,
    pub poff: u8,
    pub format: PhantomData<F>,
}

impl<F: PixelFormat> Surface for Image<F> {
    ghost side = { λ s. image_side s.size s.half };

    ghost lookup = { λ s. image_lookup (pixels F.WIDTH F.INDEXED) s.poff s.image (image_side s.size s.half) };

    fn side(&self) -> u16 {
        let side = square_side(self.size);
        if self.half { side / 2 } else { side }
    }

    #[tactic(auto, using(crate::proofs::Lookups::answers))]
    fn colour<M: Memory>(&self, at: (u16, u16), source: &Source<'_, M>) -> Result<u16, Fault> {
        let (u, v) = at;
        let side = self.side();
        let k = (v % side) as u32 * side as u32 + (u % side) as u32;
        pixel_at::<F, M>(self.image, k, self.poff, source)
    }
}
