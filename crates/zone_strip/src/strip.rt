// One line of the strip.
use memory::Card;
use painter::{Clip, Drawing, Fill, Painter, SpanRefusal, Tile};
use surface::{Format, Palette, Source};

// How many columns and lines the strip has: eight stops, with a tile each.
pub(crate) const COLUMNS: usize = 64;

pub(crate) const LINES: u16 = 8;

pub(crate) const NIGHT: u16 = 0x0006;

pub(crate) const YELLOW: u16 = 0x7FE0;

pub(crate) const RED: u16 = 0x7C00;

// Zone 1 is yellow, zone 2 is red.
fn palette() -> Palette {
    let mut palette = Palette::new();
    palette.write(1, 0x8000 + YELLOW);
    palette.write(2, 0x8000 + RED);
    palette
}

// The tiles of the stops: one row of a tile map.
fn marks() -> Drawing {
    Drawing::Tile(Tile {
        s: 0,
        poff: 0,
        yscroll: 0,
        xscroll: 0,
        tilemap: 0x3F0,
        pfs: 0,
        tileset: 0,
        format: Format::P4,
    })
}

// Paints line y of the strip, over the night.
pub(crate) fn paint_line(line: &mut [u16; 512], y: u16, card: &Card) -> Result<(), SpanRefusal> {
    let source = Source {
        memory: card,
        palette: &palette(),
    };
    let line_painter = Painter {
        source,
        clip: Clip { start: 0, end: 511 },
        y,
    };
    let strip_painter = Painter {
        clip: Clip { start: 0, end: 63 },
        ..line_painter
    };
    line_painter.draw(line, Drawing::Fill(Fill { colour: NIGHT }))?;
    strip_painter.draw(line, marks())
}
