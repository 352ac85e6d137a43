ghost use Rattle.std.specs.Prelude.{◌≡◌};
ghost use Rattle.surface.specs.Formats.{pixels, layout_of};
ghost use Rattle.painter.specs.Drawings.{format_of, painter_drawing_span};
ghost use Rattle.painter.specs.SpanLaws.{Paints};

use crate::ablit::Ablit;
use crate::atile::Atile;
use crate::blit::Blit;
use crate::fill::Fill;
use crate::painter::Painter;
use crate::span_refusal::SpanRefusal;
use crate::tile::Tile;
use memory::Memory;
use surface::{Argb1555, Format, P1, P4, P8, PixelFormat, Plain};

// The five drawings.
#[derive(Clone, Copy, PartialEq, Eq, Debug)]
pub enum Drawing {
    Fill(Fill),
    Blit(Blit),
    Tile(Tile),
    Ablit(Ablit),
    Atile(Atile),
}

impl Drawing {
    // The format that a drawing names; a fill has no pixels to unpack, so any will do. (With an Option `draw` would only get an
    // arm more, which draws in some format too.)
    fn format(self) -> Format
        ensures { result ≡ format_of self }
    {
        match self {
            Drawing::Fill(_) => Format::Argb1555,
            Drawing::Blit(blit) => blit.format,
            Drawing::Tile(tile) => tile.format,
            Drawing::Ablit(ablit) => ablit.blit.format,
            Drawing::Atile(atile) => atile.tile.format,
        }
    }
}

impl<M: Memory> Painter<'_, M> {
    // Paints a drawing whose pixels have the format F, the one that it names.
    fn draw_in<F: PixelFormat>(
        &self,
        line: &mut [u16; 512],
        drawing: Drawing,
    ) -> Result<(), SpanRefusal>
        requires { pixels F.WIDTH F.INDEXED ≡ layout_of (format_of drawing) }
        ensures { Paints (painter_drawing_span M.outcome self.now drawing) line.old line.new result }
    {
        match drawing {
            Drawing::Fill(fill) => {
                let colour = fill.colour;
                self.paint(line, &fill, &Plain { colour })
            }
            Drawing::Blit(blit) => self.paint(line, &blit, &blit.surface::<F>(false)),
            Drawing::Tile(tile) => self.paint(line, &tile, &tile.surface::<F>()),
            Drawing::Ablit(ablit) => self.paint(line, &ablit, &ablit.blit.surface::<F>(ablit.half)),
            Drawing::Atile(atile) => self.paint(line, &atile, &atile.tile.surface::<F>()),
        }
    }

    // Paints a drawing. What it does to the line, and when it is refused, is the painter's contract for the drawing's
    // mapping and surface.
    pub fn draw(&self, line: &mut [u16; 512], drawing: Drawing) -> Result<(), SpanRefusal>
        ensures { Paints (painter_drawing_span M.outcome self.now drawing) line.old line.new result }
    {
        match drawing.format() {
            Format::Argb1555 => self.draw_in::<Argb1555>(line, drawing),
            Format::P8 => self.draw_in::<P8>(line, drawing),
            Format::P4 => self.draw_in::<P4>(line, drawing),
            Format::P1 => self.draw_in::<P1>(line, drawing),
        }
    }
}
