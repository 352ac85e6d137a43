ghost use Rattle.painter.specs.Mappings.{ablit_place};

use crate::affine::Transform;
use crate::blit::Blit;
use crate::mapping::Mapping;

// ABLIT: the square of a BLIT, with its places transformed. With `half` set the image has half the square's side.
#[derive(Clone, Copy, PartialEq, Eq, Debug)]
pub struct Ablit {
    pub blit: Blit,
    pub half: bool,
    pub transform: Transform,
}

impl Mapping for Ablit {
    ghost place = { ablit_place };

    fn place(&self, y: u16, x: u16) -> Option<(u16, u16)> {
        let (dx, dy) = self.blit.place(y, x)?;
        Some(self.transform.apply(dx as i32, dy as i32))
    }

    fn columns_outside(&self, y: u16, x: u16) -> u16 {
        self.blit.columns_outside(y, x)
    }
}
