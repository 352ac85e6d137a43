// From halfwords to pixels, and from pixels to colours: once, for every format.
ghost use Rattle.std.specs.Prelude.{◌≡◌};
ghost use Rattle.surface.specs.Formats.{pixels};
ghost use Rattle.surface.specs.Palettes.{colours};
ghost use Rattle.surface.specs.Pixels.{unpacked, pixel_address, pixel_colour, pixel_lookup};
ghost use Rattle.surface.specs.Sources.{colour_from};

use crate::fault::{Fault, Reading};
use crate::format::PixelFormat;
use crate::palette::Palette;
use crate::source::Source;
use memory::Memory;

// Pixel k of an image, from the halfword that holds it.
pub fn unpack<F: PixelFormat>(halfword: u16, k: u32) -> u16
    ensures { result ≡ unpacked F.WIDTH k halfword }
{
    let width = F::layout().width;
    let shift = k.wrapping_mul(width) % 16;
    ((u32::from(halfword) >> shift) % (1 << width)) as u16
}

// The address of the halfword that holds pixel k of an image.
fn address_of<F: PixelFormat>(image: u32, k: u32) -> u32
    ensures { result ≡ pixel_address F.WIDTH image k }
{
    let bit = k as u64 * F::layout().width as u64;
    image.wrapping_add((2 * (bit / 16) % 0x1_0000_0000) as u32)
}

// The colour that a pixel means under a palette offset.
fn meaning<F: PixelFormat>(pixel: u16, poff: u8, palette: &Palette) -> u16
    ensures { result ≡ pixel_colour (pixels F.WIDTH F.INDEXED) poff pixel (colours palette.now) }
{
    if F::layout().indexed {
        let index = (pixel % 256) as u8;
        palette.colour(index.wrapping_add(poff.wrapping_mul(32)))
    } else {
        pixel
    }
}

// The colour of pixel k of an image.
pub(crate) fn pixel_at<F: PixelFormat, M: Memory>(
    image: u32,
    k: u32,
    poff: u8,
    source: &Source<'_, M>,
) -> Result<u16, Fault>
    ensures { result ≡ colour_from M.outcome source.now (pixel_lookup (pixels F.WIDTH F.INDEXED) poff image k) }
{
    let halfword = source.read(Reading::Pixel, address_of::<F>(image, k))?;
    Ok(meaning::<F>(unpack::<F>(halfword, k), poff, source.palette))
}
