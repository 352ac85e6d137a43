ghost use Rattle.painter.specs.Mappings.{fill_place};

use crate::mapping::Mapping;

// FILL: one colour in every column; of the colour only the low 15 bits count.
#[derive(Clone, Copy, PartialEq, Eq, Debug)]
pub struct Fill {
    pub colour: u16,
}

impl Mapping for Fill {
    ghost place = { fill_place };

    fn place(&self, _y: u16, _x: u16) -> Option<(u16, u16)> {
        Some((0, 0))
    }

    fn columns_outside(&self, _y: u16, _x: u16) -> u16 {
        0
    }
}
