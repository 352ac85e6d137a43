ghost use Rattle.std.specs.Prelude.{◌≡◌, ◌<◌, ◌≤◌};
ghost use Rattle.surface.specs.Formats.{pixels};
ghost use Rattle.surface.specs.Sources.{colour_from};
ghost use Rattle.surface.specs.Surfaces.{tile_side, field_side, index_address, byte_in, tile_address, tile_pixel, tile_lookup};

use crate::fault::{Fault, Reading};
use crate::format::PixelFormat;
use crate::pixel::pixel_at;
use crate::side::power_of_two;
use crate::source::Source;
use crate::surface::Surface;
use memory::{Memory, even};
use std::marker::PhantomData;

// A square field of tiles. The tile map has a byte for each tile, row by row: which tile of the tile set it is. Tiles
// have a side of 2^(s + 3), the field one of 2^(pfs + 7); only one bit of s and two of pfs count. `poff` is the palette
// offset.
#[derive(Clone, Copy)]
pub struct TileField<F> {
    pub tilemap: u32,
    pub tileset: u32,
    pub s: u8,
    pub pfs: u8,
    pub poff: u8,
    pub format: PhantomData<F>,
}

// The byte at an address, from the halfword around it.
fn byte_of(address: u32, halfword: u16) -> u8
    ensures { result ≡ byte_in address halfword }
{
    ((halfword >> (8 * (address % 2))) % 256) as u8
}

// Where tile i of a tile set begins.
#[tactic(auto, using(crate::proofs::Tiles::tile_bits))]
fn start_of_tile<F: PixelFormat>(tileset: u32, t: u16, i: u8) -> u32
    requires { t ≤ 16 }
    ensures { result ≡ tile_address (pixels F.WIDTH F.INDEXED) tileset t i }
{
    let bits = i as u32 * t as u32 * t as u32 * F::layout().width;
    tileset.wrapping_add(bits / 8)
}

impl<F: PixelFormat> TileField<F> {
    // The side of a tile.
    #[tactic(auto, using(crate::proofs::Sides::tile_side_most))]
    fn side_of_tile(&self) -> u16
        ensures value { result ≡ tile_side self.now.s }
        ensures some { 0 < result }
        ensures small { result ≤ 16 }
    {
        power_of_two(self.s % 2 + 3)
    }

    // Where the index of the tile around (u, v) stands.
    fn place_of_index(&self, u: u16, v: u16) -> u32
        ensures { result ≡ index_address self.now.tilemap (tile_side self.now.s) (field_side self.now.pfs) u v }
    {
        let t = self.side_of_tile();
        let row = self.side() / t;
        let place = (v / t) as u32 * row as u32 + (u / t) as u32;
        self.tilemap.wrapping_add(place)
    }

    // The pixel of tile i at (u, v).
    fn pixel_of_tile<M: Memory>(
        &self,
        i: u8,
        u: u16,
        v: u16,
        source: &Source<'_, M>,
    ) -> Result<u16, Fault>
        ensures { result ≡ colour_from M.outcome source.now (tile_pixel (pixels F.WIDTH F.INDEXED) self.now.poff self.now.tileset (tile_side self.now.s) u v i) }
    {
        let t = self.side_of_tile();
        let image = start_of_tile::<F>(self.tileset, t, i);
        let k = (v % t) as u32 * t as u32 + (u % t) as u32;
        pixel_at::<F, M>(image, k, self.poff, source)
    }
}

impl<F: PixelFormat> Surface for TileField<F> {
    ghost side = { λ s. field_side s.pfs };

    ghost lookup = { λ s. tile_lookup (pixels F.WIDTH F.INDEXED) s.poff s.tilemap s.tileset (tile_side s.s) (field_side s.pfs) };

    fn side(&self) -> u16 {
        power_of_two(self.pfs % 4 + 7)
    }

    #[tactic(auto, using(crate::proofs::Lookups::answers))]
    fn colour<M: Memory>(&self, at: (u16, u16), source: &Source<'_, M>) -> Result<u16, Fault> {
        let (u, v) = at;
        let side = self.side();
        let place = self.place_of_index(u % side, v % side);
        let halfword = source.read(Reading::TileIndex, even(place))?;
        self.pixel_of_tile(byte_of(place, halfword), u % side, v % side, source)
    }
}
