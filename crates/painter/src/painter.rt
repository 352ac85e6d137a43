ghost use Rattle.std.specs.Prelude.{◌≡◌, ◌+◌, ◌<◌, min};
ghost use Rattle.surface.specs.Lookups.{folded};
ghost use Rattle.surface.specs.Sources.{colour_from};
ghost use Rattle.painter.specs.Spans.{painter_span, effect_of, with_effect};
ghost use Rattle.painter.specs.SpanLaws.{Paints};

use crate::clip::Clip;
use crate::columns::Columns;
use crate::mapping::Mapping;
use crate::span_refusal::SpanRefusal;
use memory::Memory;
use surface::{Source, Surface, is_opaque};

// What a span is painted with: what its colours are read from, the clip, and the number of its line.
#[derive_where(Clone, Copy)]
pub struct Painter<'a, M> {
    pub source: Source<'a, M>,
    pub clip: Clip,
    pub y: u16,
}

impl<M: Memory> Painter<'_, M> {
    // Paints column x with the colour at a place of the surface.
    fn paint_column<S: Surface>(
        &self,
        line: &mut [u16; 512],
        x: u16,
        at: (u16, u16),
        surface: &S,
    ) -> Result<(), SpanRefusal>
        requires { x < 512 }
        ensures { with_effect line.old x (effect_of (colour_from M.outcome self.now.source (folded (S.side surface.now) (S.lookup surface.now) at.0 at.1))) ≡ (result, line.new) }
    {
        let colour = surface
            .colour(at, &self.source)
            .map_err(|fault| SpanRefusal { column: x, fault })?;
        if is_opaque(colour) {
            line[usize::from(x)] = colour % 0x8000;
        }
        Ok(())
    }

    // The columns of the clip that lie in the region of a mapping.
    fn columns<'m, P: Mapping>(&self, mapping: &'m P) -> Columns<'m, P>
        ensures same_mapping { result.mapping.now ≡ mapping.now }
        ensures range { result ≡ record result { y = self.now.y; x = min self.now.clip.start 512; end = min self.now.clip.end 511 + 1 } }
    {
        Columns {
            mapping,
            y: self.y,
            x: self.clip.start.min(512),
            end: self.clip.end.min(511) + 1,
        }
    }

    // The painter, for every mapping, every surface and every memory. It goes over the columns of line y that lie in the
    // clip and in the region of the mapping, from left to right, and puts the low 15 bits of each opaque colour into the
    // line; all other pixels keep their value. The first column that is refused ends it, with the columns left of it
    // painted. What this means for each column by itself is part of the contract.
    pub fn paint<P: Mapping, S: Surface>(
        &self,
        line: &mut [u16; 512],
        mapping: &P,
        surface: &S,
    ) -> Result<(), SpanRefusal>
        ensures { Paints (painter_span M.outcome self.now (P.place mapping.now) (S.side surface.now) (S.lookup surface.now)) line.old line.new result }
    {
        for (x, at) in self.columns(mapping) {
            self.paint_column(line, x, at, surface)?;
        }
        Ok(())
    }
}
