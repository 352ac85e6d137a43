// A drawing that several tests begin from.
use painter::Blit;
use surface::Format;

// A square of side 8 in the first line, of 4 bits a pixel.
pub(crate) fn blit(x0: u16, image: u32) -> Blit {
    Blit {
        size: 0,
        poff: 0,
        y0: 0,
        x0,
        image,
        format: Format::P4,
    }
}
