// Affine transforms of places, in 1/256 of a pixel.
ghost use Rattle.std.specs.Prelude.{◌≡◌, ◌+ℤ◌, ◌*ℤ◌};
ghost use Rattle.std.specs.Int.{int_wrap, w32};
ghost use Rattle.painter.specs.Drawings.{ChangesNothing};
ghost use Rattle.painter.specs.Mappings.{affine, transformed, identity};

// A matrix and a shift: u = a00 · dx + a01 · dy + b0, and v the same of a10, a11 and b1. In the a, 256 means 1; in the
// b, 64 means 1.
#[derive(Clone, Copy, PartialEq, Eq, Debug)]
pub struct Transform {
    pub b1: u16,
    pub b0: u16,
    pub a01: i16,
    pub a00: i16,
    pub a11: i16,
    pub a10: i16,
}

// a · dx + b · dy + c, wrapped to 32 bits.
fn weighted_sum(a: i32, b: i32, c: i32, dx: i32, dy: i32) -> i32
    ensures { result ≡ int_wrap w32 (a *ℤ dx +ℤ b *ℤ dy +ℤ c) }
{
    a.wrapping_mul(dx)
        .wrapping_add(b.wrapping_mul(dy))
        .wrapping_add(c)
}

// One coordinate. The distances are two numbers, as in the formula: a pair would only be taken apart.
fn coordinate(a: i16, b: i16, c: u16, dx: i32, dy: i32) -> u16
    ensures { result ≡ affine a b c dx dy }
{
    let sum = weighted_sum(a as i32, b as i32, 4 * c as i32, dx, dy);
    let part = sum.rem_euclid(0x4_0000) as u32;
    (part / 256) as u16
}

impl Transform {
    // The identity: it keeps every place. With it an ABLIT without `half` paints as its BLIT, and an ATILE as its TILE.
    #[tactic(auto, using(crate::proofs::Drawings::identity_changes_nothing))]
    pub fn identity() -> Transform
        ensures value { result ≡ identity }
        ensures changes_nothing { ChangesNothing result }
    {
        Transform {
            b1: 0,
            b0: 0,
            a01: 0,
            a00: 256,
            a11: 256,
            a10: 0,
        }
    }

    // The place (u, v) that (dx, dy) is taken to.
    pub(crate) fn apply(self, dx: i32, dy: i32) -> (u16, u16)
        ensures { result ≡ transformed self dx dy }
    {
        (
            coordinate(self.a00, self.a01, self.b0, dx, dy),
            coordinate(self.a10, self.a11, self.b1, dx, dy),
        )
    }
}
