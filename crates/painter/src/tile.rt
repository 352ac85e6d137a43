ghost use Rattle.std.specs.Prelude.{◌≡◌};
ghost use Rattle.painter.specs.Mappings.{tile_place};

use crate::distance::distance;
use crate::mapping::Mapping;
use std::marker::PhantomData;
use surface::{Format, PixelFormat, TileField};

// TILE: a field of tiles over the whole line, scrolled. Tiles have a side of 2^(s + 3), the field one of 2^(pfs + 7); only
// one bit of s and two of pfs count. `poff` is the palette offset, `tilemap` and `tileset` are addresses.
#[derive(Clone, Copy, PartialEq, Eq, Debug)]
pub struct Tile {
    pub s: u8,
    pub poff: u8,
    pub yscroll: u16,
    pub xscroll: u16,
    pub tilemap: u32,
    pub pfs: u8,
    pub tileset: u32,
    pub format: Format,
}

impl Tile {
    // The field that it shows.
    pub(crate) fn surface<F: PixelFormat>(&self) -> TileField<F>
        ensures { result ≡ record result { tilemap = self.now.tilemap; tileset = self.now.tileset; s = self.now.s; pfs = self.now.pfs; poff = self.now.poff } }
    {
        TileField {
            tilemap: self.tilemap,
            tileset: self.tileset,
            s: self.s,
            pfs: self.pfs,
            poff: self.poff,
            format: PhantomData,
        }
    }
}

impl Mapping for Tile {
    ghost place = { tile_place };

    fn place(&self, y: u16, x: u16) -> Option<(u16, u16)> {
        Some((distance(x, self.xscroll), distance(y, self.yscroll)))
    }

    fn columns_outside(&self, _y: u16, _x: u16) -> u16 {
        0
    }
}
