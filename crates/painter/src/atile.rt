ghost use Rattle.painter.specs.Mappings.{atile_place};

use crate::affine::Transform;
use crate::distance::signed_distance;
use crate::mapping::Mapping;
use crate::tile::Tile;

// ATILE: the field of a TILE, with its places transformed. The distances from the scroll stay signed.
#[derive(Clone, Copy, PartialEq, Eq, Debug)]
pub struct Atile {
    pub tile: Tile,
    pub transform: Transform,
}

impl Mapping for Atile {
    ghost place = { atile_place };

    fn place(&self, y: u16, x: u16) -> Option<(u16, u16)> {
        let dx = signed_distance(x, self.tile.xscroll);
        let dy = signed_distance(y, self.tile.yscroll);
        Some(self.transform.apply(dx, dy))
    }

    fn columns_outside(&self, _y: u16, _x: u16) -> u16 {
        0
    }
}
