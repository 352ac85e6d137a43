use crate::mapping::Mapping;

// The columns from x up to an end that lie in the region of a mapping on line y, from left to right, each with its place.
#[derive(Drop)]
pub(crate) struct Columns<'a, P> {
    pub(crate) mapping: &'a P,
    pub(crate) y: u16,
    pub(crate) x: u16,
    pub(crate) end: u16,
}

impl<P: Mapping> Iterator for Columns<'_, P> {
    ghost use Rattle.std.specs.Prelude.{◌-◌};
    ghost use Rattle.std.specs.Iterator.{at_most};
    ghost use Rattle.painter.specs.Columns.{GivesColumn};

    type Item = (u16, (u16, u16));

    ghost next_gives = { GivesColumn P.place };

    ghost remaining = { λ s. at_most (s.end - s.x) };

    // A `while` and no `for`, since it jumps over the columns that the mapping says are outside.
    fn next(&mut self) -> Option<(u16, (u16, u16))> {
        let end = self.end;
        let mut x = self.x;
        while x < end {
            match self.mapping.place(self.y, x) {
                Some(at) => {
                    self.x = x + 1;
                    return Some((x, at));
                }
                None => {
                    let outside = self.mapping.columns_outside(self.y, x);
                    x = (x + 1).saturating_add(outside).min(end);
                }
            }
        }
        None
    }
}
