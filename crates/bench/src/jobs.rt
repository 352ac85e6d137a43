// The drawings that are timed.
use memory::Memory;
use painter::{Ablit, Atile, Blit, Clip, Drawing, Fill, Painter, Tile, Transform};
use surface::{Format, Source};

// A drawing with its name, and how many columns and lines of it there are.
#[derive(Clone, Copy)]
pub(crate) struct Job {
    pub(crate) name: &'static str,
    drawing: Drawing,
    pub(crate) columns: u16,
    lines: u32,
}

// A blit in the upper left corner.
fn blit(size: u8, format: Format) -> Blit {
    Blit {
        size,
        poff: 1,
        y0: 0,
        x0: 0,
        image: 0,
        format,
    }
}

// A field of 512 by 512 pixels.
fn field(s: u8, format: Format) -> Tile {
    Tile {
        s,
        poff: 2,
        yscroll: 3,
        xscroll: 5,
        tilemap: 0xF_0000,
        pfs: 2,
        tileset: 0,
        format,
    }
}

// A turn with a little scaling.
fn turn() -> Transform {
    Transform {
        b1: 640,
        b0: 320,
        a01: -77,
        a00: 231,
        a11: 231,
        a10: 77,
    }
}

// A job as wide as the line.
fn wide(name: &'static str, drawing: Drawing) -> Job {
    Job {
        name,
        drawing,
        columns: 512,
        lines: 512,
    }
}

pub(crate) fn jobs() -> [Job; 9] {
    let ablit = Ablit {
        blit: blit(6, Format::P4),
        half: true,
        transform: turn(),
    };
    let atile = Atile {
        tile: field(1, Format::P8),
        transform: turn(),
    };
    let small = Job {
        name: "blit of 8 columns, 4 bits",
        drawing: Drawing::Blit(blit(0, Format::P4)),
        columns: 8,
        lines: 8,
    };
    [
        wide("fill", Drawing::Fill(Fill { colour: 0x1234 })),
        wide("blit, 16 bits", Drawing::Blit(blit(6, Format::Argb1555))),
        wide("blit, 8 bits", Drawing::Blit(blit(6, Format::P8))),
        wide("blit, 4 bits", Drawing::Blit(blit(6, Format::P4))),
        wide("blit, 1 bit", Drawing::Blit(blit(6, Format::P1))),
        small,
        wide("tile, 4 bits", Drawing::Tile(field(0, Format::P4))),
        wide("ablit, 4 bits", Drawing::Ablit(ablit)),
        wide("atile, 8 bits", Drawing::Atile(atile)),
    ]
}

impl Job {
    // Draws so many spans, on one line after the other, and says how many were refused.
    pub(crate) fn draw<M: Memory>(
        &self,
        line: &mut [u16; 512],
        spans: u32,
        source: Source<'_, M>,
    ) -> usize {
        let clip = Clip { start: 0, end: 511 };
        (0..spans)
            .map(|i| {
                let y = (i % self.lines.max(1) % 1024) as u16;
                Painter { source, clip, y }.draw(line, self.drawing)
            })
            .filter(|answer| answer.is_err())
            .count()
    }
}
