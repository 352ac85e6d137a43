ghost use Rattle.std.specs.Prelude.{◌≡◌};
ghost use Rattle.painter.specs.Mappings.{blit_place};

use crate::distance::distance;
use crate::mapping::Mapping;
use std::marker::PhantomData;
use surface::{Format, Image, PixelFormat, square_side};

// BLIT: a square image with its corner at (x0, y0). Of the size, which gives the side 2^(size + 3), only the low three
// bits count; `poff` is the palette offset and `image` the image's address.
#[derive(Clone, Copy, PartialEq, Eq, Debug)]
pub struct Blit {
    pub size: u8,
    pub poff: u8,
    pub y0: u16,
    pub x0: u16,
    pub image: u32,
    pub format: Format,
}

impl Blit {
    // The image that it shows, or with `half` the one of half the side.
    pub(crate) fn surface<F: PixelFormat>(&self, half: bool) -> Image<F>
        ensures { result ≡ record result { image = self.now.image; size = self.now.size; half = half; poff = self.now.poff } }
    {
        Image {
            image: self.image,
            size: self.size,
            half,
            poff: self.poff,
            format: PhantomData,
        }
    }
}

impl Mapping for Blit {
    ghost place = { blit_place };

    fn place(&self, y: u16, x: u16) -> Option<(u16, u16)> {
        let side = square_side(self.size);
        let dx = distance(x, self.x0);
        let dy = distance(y, self.y0);
        (dx < side && dy < side).then_some((dx, dy))
    }

    // All if line y is outside the square, and else those up to where the distance from x0 comes round to 0.
    fn columns_outside(&self, y: u16, x: u16) -> u16 {
        let side = square_side(self.size);
        if distance(y, self.y0) >= side {
            return 1023;
        }
        let next = (distance(x, self.x0) + 1) % 1024;
        if next < side { 0 } else { 1024 - next }
    }
}
